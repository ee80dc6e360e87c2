// The law of counts: the units of all seats of a block add up to its count, so that holds brought together are no more.
ghost use Rattle.std.specs.Prelude.{◌≡◌, ℕ, List, [], ◌∷◌, ◌+◌, ◌<◌, ◌≤◌, length};
ghost use Rattle.jyard.specs.Gathering.{AreHoldsOf, IsSum, how_many};
ghost use Rattle.jyard.specs.Taken.{HasCounted};
ghost use Rattle.jyard.specs.Seats.{seat_of};
ghost use Rattle.jyard.specs.Units.{BlockId, id_at};
ghost use Rattle.jyard.specs.Yards.{blocks_of, IsHoldOf, IsPassOf};

use crate::gathered::Gathered;
use crate::hold::Hold;
use crate::seats::Seats;
use crate::yard::{Yard, YardPass};

impl<T> Gathered<T> {
    /// One hold.
    pub fn of(hold: Hold<T>) -> Gathered<T>
        ensures holds { (result.block ≡ hold.block) × (result.seats.all ≡ seat_of hold.seat ∷ []) }
        ensures yard { (ids : List BlockId) → IsHoldOf ids hold → AreHoldsOf ids result }
    {
        let Hold { block, seat } = hold;
        Gathered {
            block,
            seats: Seats::of(seat),
        }
    }

    /// One hold more, of the same block.
    pub fn add(self, hold: Hold<T>) -> Gathered<T>
        requires { hold.block ≡ self.block }
        ensures holds { (result.block ≡ self.block) × (result.seats.all ≡ seat_of hold.seat ∷ self.seats.all) }
        ensures yard { (ids : List BlockId) → AreHoldsOf ids self → IsHoldOf ids hold → AreHoldsOf ids result }
    {
        let Self { block, seats } = self;
        let Hold { block: _, seat } = hold;
        Gathered {
            block,
            seats: seats.add(seat),
        }
    }

    /// The hold that was added last, and the others.
    pub fn part(self) -> (Hold<T>, Gathered<T>)
        requires { 0 < how_many self }
        ensures holds { (result.0.block ≡ self.block) × (result.1.block ≡ self.block) × (self.seats.all ≡ seat_of result.0.seat ∷ result.1.seats.all) }
        ensures yard { (ids : List BlockId) → AreHoldsOf ids self → IsHoldOf ids result.0 × AreHoldsOf ids result.1 }
    {
        let Self { block, seats } = self;
        let (seat, seats) = seats.part();
        (Hold { block, seat }, Gathered { block, seats })
    }

    /// The one hold.
    pub fn only(self) -> Hold<T>
        requires { how_many self ≡ 1 }
        ensures holds { (result.block ≡ self.block) × (self.seats.all ≡ seat_of result.seat ∷ []) }
        ensures yard { (ids : List BlockId) → AreHoldsOf ids self → IsHoldOf ids result }
    {
        let Self { block, seats } = self;
        let seat = seats.only();
        Hold { block, seat }
    }

    /// The law of counts. It reads the block's word, and the units of all the block's seats, those brought together and others, add up to the count that this tells.
    pub fn count(self, yard: &Yard<T>, pass: &mut YardPass) -> (u64, Gathered<T>)
        requires { (0 < how_many self) × AreHoldsOf (blocks_of yard.now) self }
        ensures law { IsSum self result.0 }
        ensures least { how_many self ≤ result.0 }
        ensures holds { (result.1.block ≡ self.block) × (result.1.seats.all ≡ self.seats.all) }
        ensures yard { AreHoldsOf (blocks_of yard.now) result.1 }
        ensures pass { (pass.new.view.yard ≡ pass.old.view.yard) × (pass.new.next ≡ pass.old.next) × HasCounted pass.old.view.spent pass.new.view.spent (id_at (blocks_of yard.now) self.block) (result.0 + 1) }
    {
        let Self { block, seats } = self;
        let (word, seats) = yard.table().tally(seats, block as usize, &mut pass.view);
        (word - 1, Gathered { block, seats })
    }
}

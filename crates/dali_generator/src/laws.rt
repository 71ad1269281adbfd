//! What holds of each generated round.
ghost use Rattle.std.specs.Prelude.{ℕ};
ghost use Rattle.dali_geometry.specs.Sizes.{AreInRange};
ghost use Rattle.dali_script.specs.Scripts.{IsRightRound};
ghost use Rattle.dali_generator.specs.Generated.{AreWithin, generated, sizes_of};
ghost use Rattle.dali_generator.specs.Left.{LeavesThem, HasTheirKeys};

/// A generated round is such as a script may have: its clients are numbered from 1 to 64 and have one block each. Each
/// command stands where it may, with keys below 2^64 and values of 1 to 40 bytes. The regions that it runs on are as many
/// as a database may have.
pub fn generated_rounds_are_right()
    ensures round { (clients size number : ℕ) → AreWithin clients size → IsRightRound (generated clients size number) }
    ensures sizes { (clients size : ℕ) → AreWithin clients size → AreInRange (sizes_of clients size) }
{}

/// However the clients' transactions come between each other, a plain replay of them leaves the same map, which follows
/// from the three numbers, where each insert was answered ok; and ascending keys of that map are the same list.
pub fn every_order_leaves_the_same()
    ensures map { LeavesThem }
    ensures keys { HasTheirKeys }
{}

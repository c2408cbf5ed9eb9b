// Records written into a space that the caller lends.
#![tactic(auto)]

ghost use Rattle.std.specs.Prelude.{◌≡◌, [], ◌∷◌, ◌+◌, ◌*◌, ◌-◌, ◌<◌, min};
ghost use Rattle.rules.specs.Records.{cents};
ghost use Rattle.records.specs.Space.{Appended, Room};

use rules::Record;

// The space that a caller lends for records, and how many were written at its start.
#[derive(Drop)]
pub struct Records<'a> {
    pub space: &'a mut [i32],
    pub count: usize,
}

// A level's price in cents.
pub fn cents(level: u32) -> i32
    requires { level < 2147483648 }
    ensures { result ≡ cents level }
{
    level as i32 - 10000000
}

impl<'a> Records<'a> {
    // One record behind those written.
    pub fn push(&mut self, r: Record)
        requires { Room self.old (r ∷ []) }
        ensures { Appended self.old self.new (r ∷ []) }
    {
        let at = self.count * 6;
        self.space[at] = u32::from(r.kind) as i32;
        self.space[at + 1] = r.number as i32;
        self.space[at + 2] = r.place as i32;
        self.space[at + 3] = r.side as i32;
        self.space[at + 4] = r.quantity as i32;
        self.space[at + 5] = cents(r.level);
        self.count += 1;
    }
}

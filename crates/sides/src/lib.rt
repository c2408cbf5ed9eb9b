// Sides and prices: 0 is a buy, 1 a sell.
#![tactic(auto)]

ghost use Rattle.std.specs.Prelude.{◌≡◌};
ghost use Rattle.rules.specs.Sides.{other, leg_side, meets, better, best_price};

use rules::Leg;

pub fn other(side: u8) -> u8
    ensures { result ≡ other side }
{
    if side == 0 { 1 } else { 0 }
}

// The side that a complex party of that side takes on a leg.
pub fn leg_side(side: u8, l: Leg) -> u8
    ensures { result ≡ leg_side side l }
{
    if side == 0 { l.side } else { other(l.side) }
}

// Whether a price meets a limit: a buy pays no more, a sell takes no less.
pub fn meets(side: u8, limit: u32, price: u32) -> bool
    ensures { result ≡ meets side limit price }
{
    if side == 0 {
        price <= limit
    } else {
        limit <= price
    }
}

// Whether price x is strictly better than y for that side.
pub fn better(side: u8, x: u32, y: u32) -> bool
    ensures { result ≡ better side x y }
{
    if side == 0 { x < y } else { y < x }
}

// The better of a best price of that side (0: none yet, as the rule has it) and one more: the higher bid, the lower offer.
pub fn best_price(side: u8, p: u32, q: u32) -> u32
    ensures { result ≡ best_price side p q }
{
    if p == 0 || better(side, p, q) { q } else { p }
}

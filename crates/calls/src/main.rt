// The program `calls`: from standard input calls of the book's entry, each a frame of any bytes and the length of the record
// space that it is lent; to standard output what `tape` prints of each, and at the end what the lookups say of the book.
#![tactic(auto)]

ghost use Rattle.std.specs.Prelude.{◌≡◌, List, ℕ, ◌+◌, ◌≤◌, ◌<◌, length, drop};
ghost use Rattle.base.specs.Chains.{unless_zero};
ghost use Rattle.base.specs.Walks.{join_n};
ghost use Rattle.rules.specs.Sizes.{record_space};
ghost use Rattle.rules.specs.declared.State.{State};
ghost use Rattle.lines.specs.Puts.{Room, Within};
ghost use Rattle.streams.specs.Rests.{left, rest_of};
ghost use Rattle.turns.specs.Turns.{Tells};
ghost use Rattle.calls.specs.Items.{item_needed, item_of, lent_of};
ghost use Rattle.calls.specs.Listings.{live_at, shut_line, nets_line, depth_at, depth_line, best_of, is_best, lookup_text, cut_line};
ghost use Rattle.calls.specs.Printed.{Printed};
ghost use Rattle.calls.specs.Calls.{ItemTurned, ItemsEnded};

use book::Book;
use depths::depth_in;
use events::Refusal;
use lines::{Text, two_bytes};
use rules::Best;
use streams::{Input, drain};
use turns::{MeasuredProgram, Program, run, tell};

// The bytes of text that one line of the lookups needs at most.
const LINE: usize = 86;

// How many bytes of the rest of the input must be there to judge its first item: the four of its lengths, then the frame.
fn needed(rest: &[u8]) -> usize
    ensures { result ≡ item_needed rest.now }
{
    if rest.len() < 4 {
        return 4;
    }
    4 + two_bytes(rest, 0)
}

// The length of the first item of the rest of the input; none where the input ends before or inside it.
fn item(rest: &[u8]) -> Option<usize>
    ensures { result ≡ unless_zero (item_of rest.now) }
{
    if rest.len() < 4 {
        return None;
    }
    let n = 4 + two_bytes(rest, 0);
    if rest.len() < n {
        return None;
    }
    Some(n)
}

// The length of the record space that an item is lent.
fn lent(item: &[u8]) -> usize
    requires { 4 ≤ length item.now }
    ensures { result ≡ lent_of item.now }
{
    two_bytes(item, 2).min(Book::RECORD_SPACE)
}

// One call: the item's frame goes to the book with the space that it is lent, and what is printed of it goes behind the text.
fn tell_item(book: &mut Book, index: u64, item: &[u8], space: &mut [i32], text: &mut Text)
    requires in_bounds { 4 ≤ length item.now }
    requires space_len { length space.old ≡ record_space }
    requires room { Room text.old 189526 }
    ensures { Tells book.old.state index (drop 4 item.now) (lent_of item.now) text.old text.new book.new }
{
    let m = lent(item);
    tell(book, index, &item[4..], &mut space[..m], text);
}

// A lookup of the book, which prints a line, or nothing, for each of its places.
trait Lookup {
    ghost line: { State → ℕ → List ℕ };

    // The line of a place, if it has one.
    fn put(&self, book: &Book, place: u32, text: &mut Text)
        requires place_bound { place < 100000 }
        requires room { Room text.old 86 }
        ensures { Within 86 text.old text.new (line book.now.state place) };
}

// The numbers from 1 on of which something is live.
struct Live;

impl Lookup for Live {
    ghost line = { live_at };

    fn put(&self, book: &Book, place: u32, text: &mut Text) {
        let number = place + 1;
        let quantity = book.live_quantity(number);
        if quantity != 0 {
            text.line(b'L', &[u64::from(number), u64::from(quantity)]);
        }
    }
}

// The shut legs of the strategies that are defined.
struct Shut;

impl Lookup for Shut {
    ghost line = { shut_line };

    fn put(&self, book: &Book, place: u32, text: &mut Text) {
        if let Ok(legs) = book.shut_legs(place) {
            text.line(
                b'S',
                &[
                    u64::from(place),
                    u64::from(legs.count),
                    u64::from(legs.lowest),
                ],
            );
        }
    }
}

// The nets of the strategies that are defined.
struct Nets;

impl Lookup for Nets {
    ghost line = { nets_line };

    fn put(&self, book: &Book, place: u32, text: &mut Text) {
        if let Ok(nets) = book.nets(place) {
            text.told(b'N', u64::from(place), nets.bid, nets.offer);
        }
    }
}

// The best price of a depth, none where it is empty or refused.
fn best_of(depth: Result<Option<Best>, Refusal>) -> Option<Best>
    ensures { result ≡ best_of depth }
{
    depth.ok().flatten()
}

// Whether a best price is that price with those contracts.
fn is_best(held: Option<Best>, price: u32, contracts: u32) -> bool
    ensures { result ≡ is_best held price contracts }
{
    match held {
        Some(best) => best.price == price && best.contracts == contracts,
        None => false,
    }
}

// The line of a series and side, if its depth is not empty. The depth is looked up twice, in the book and in a row that is
// lent; that both are one is proved, so the line is left out nowhere.
fn put_depth(book: &Book, series: u32, side: u32, text: &mut Text)
    requires { Room text.old 86 }
    ensures { Within 86 text.old text.new (depth_line book.now.state series side) }
{
    let held = best_of(book.depth(series, side));
    if let Some(best) = best_of(depth_in(book.order_row(), series, side)) {
        if is_best(held, best.price, best.contracts) {
            text.line(
                b'D',
                &[
                    u64::from(series),
                    u64::from(side),
                    u64::from(best.price),
                    u64::from(best.contracts),
                ],
            );
        }
    }
}

// The depths that are not empty, of each series side 0 and side 1.
struct Depths;

impl Lookup for Depths {
    ghost line = { depth_at };

    fn put(&self, book: &Book, place: u32, text: &mut Text) {
        put_depth(book, place / 2, place % 2, text);
    }
}

// The lines of the first n places of a lookup, each where there is room again.
fn list<L: Lookup, R: Print + Eprint>(lookup: &L, n: u32, rt: &R, book: &Book, text: &mut Text)
    requires n_bound { n ≤ 100000 }
    requires room { 86 ≤ length text.old.out.now }
    ensures { Printed text.old text.new (join_n (L.line book.now.state) n) }
{
    for place in 0..n {
        drain(rt, text, LINE);
        lookup.put(book, place, text);
    }
}

// What the lookups say of the book.
fn list_lookups<R: Print + Eprint>(rt: &R, book: &Book, text: &mut Text)
    requires { 86 ≤ length text.old.out.now }
    ensures { Printed text.old text.new (lookup_text book.now.state) }
{
    list(&Live, 100000, rt, book, text);
    list(&Shut, 16, rt, book, text);
    list(&Nets, 16, rt, book, text);
    list(&Depths, 64, rt, book, text);
}

// The line of an item that is cut short, where some bytes of it are left.
fn put_cut(left: usize, text: &mut Text)
    requires { Room text.old 86 }
    ensures { Within 86 text.old text.new (cut_line left) }
{
    if left != 0 {
        text.put(b"cut\n");
    }
}

// The last turn, where no whole item comes: `cut` where one was begun, and the lookups. The book and the input stay.
fn tell_end<R: Print + Eprint>(rt: &R, book: &Book, input: &Input, text: &mut Text)
    requires nothing { item_of (rest_of input.now) ≡ 0 }
    requires room { Room text.old 189526 }
    ensures { ItemsEnded book.now input.now text.old text.new }
{
    put_cut(input.rest().len(), text);
    list_lookups(rt, book, text);
}

// Items, one after the other.
struct Items;

impl Program for Items {
    ghost needed_gives = { λ rest n. n ≡ item_needed rest };

    ghost first_of = { item_of };

    ghost turned = { ItemTurned };

    fn needed(&self, rest: &[u8]) -> usize {
        needed(rest)
    }

    fn first(&self, rest: &[u8]) -> Option<usize> {
        item(rest)
    }

    fn turn<R: Print + Eprint>(
        &self,
        rt: &R,
        index: u64,
        book: &mut Book,
        input: &mut Input,
        space: &mut [i32],
        text: &mut Text,
    ) -> bool {
        let Some(n) = item(input.rest()) else {
            tell_end(rt, book, input, text);
            return false;
        };
        tell_item(book, index, &input.rest()[..n], space, text);
        input.consume(n);
        true
    }
}

impl MeasuredProgram for Items {
    ghost needed_by = { item_needed };

    ghost needed_is = { λ rest n h. h };
}

fn main(rt: HostRuntime) {
    let mut reader = rt.stdin();
    run(&Items, &mut reader, &rt);
}

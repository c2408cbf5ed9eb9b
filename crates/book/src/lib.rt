// The book of complex orders. Its state is private, so that no other crate can make a book, and it is valid.
#![tactic(auto)]

ghost use Rattle.std.specs.Prelude.{◌≡◌, [], ◌∷◌, eqb, length, ◌≤◌, ◌<◌, List, ℤ, Ok};
ghost use Rattle.rules.specs.Lookups.{live_quantity, shut_legs, leg_nets, depth_tells, shut_tells, nets_tells};
ghost use Rattle.rules.specs.Valid.{Valid};
ghost use Rattle.rules.proofs.Props.{valid-prop};
ghost use Rattle.rules.specs.State.{first};
ghost use Rattle.lookups.specs.Lookups.{book_depth, lent_row};
ghost use Rattle.events.specs.declared.Event.TheVariants as E;
ghost use Rattle.rules.specs.Fits.{FitGiven, FitOrderGiven, FitSweepGiven, FitLegOrderGiven};
ghost use Rattle.base.specs.Pick.{pick};
ghost use Rattle.rules.specs.Sizes.{strategy_slots, order_slots, sweep_slots, leg_order_slots, series_count, record_space};
ghost use Rattle.book.specs.Books.{Took, Stepped};

use cancels::cancel_number;
use clocks::on_clock;
use complex_orders::on_order;
use day_ends::on_day_end;
use events::{Event, Refusal};
use frames::read;
use given::{
    ill_formed, leg_order_given, order_given, quote_given, specialist_given, strategy_given,
    sweep_given,
};
use leg_orders::on_leg_order;
use national::{set_prices, set_range};
use records::Records;
use refusals::{
    cancel_refusal, clock_refusal, leg_order_refusal, national_refusal, order_refusal,
    specialist_refusal, sweep_refusal,
};
use rules::{Accepted, Best, Entry, OrderEntry, ShutLegs, State, StrategyNets};
use series::on_series;
use specialists::set_specialist;
use strategies::{add, number_of};
use sweeps::on_sweep;
use tables::fresh;

#[derive(Clone, Copy)]
pub struct Book {
    state: State,
    pub ghost valid: { Valid state } by { valid-prop state },
}

// The number that an entry takes; one of 0 units takes none.
#[tactic(auto, unfolding(base::specs::Pick::pick))]
fn number_taken(e: Entry) -> u32
    ensures { result ≡ pick (eqb e.units 0) 0 e.number }
{
    if e.units == 0 { 0 } else { e.number }
}

// What an accepted event answers.
fn accepted(value: u32, records: usize) -> Accepted
    ensures { result ≡ record { value = value; records = records } }
{
    Accepted { value, records }
}

impl Book {
    // The sizes of the tables, and the numbers of a record space: those of its state.
    pub const STRATEGIES: usize = State::STRATEGIES;

    pub const ORDERS: usize = State::ORDERS;

    pub const SWEEPS: usize = State::SWEEPS;

    pub const LEG_ORDERS: usize = State::LEG_ORDERS;

    pub const RECORD_SPACE: usize = State::RECORD_SPACE;

    // These sizes, in their order.
    pub fn sizes() -> [usize; 5]
        ensures { result ≡ strategy_slots ∷ (order_slots ∷ (sweep_slots ∷ (leg_order_slots ∷ (record_space ∷ [])))) }
    {
        [
            Book::STRATEGIES,
            Book::ORDERS,
            Book::SWEEPS,
            Book::LEG_ORDERS,
            Book::RECORD_SPACE,
        ]
    }

    // The first book: timer 5,000, clock 0, all shut, its tables empty and no number given.
    pub fn first() -> Book
        ensures { result.state ≡ first }
    {
        Book { state: fresh(5000) }
    }

    // Kind 1: a strategy.
    fn strategy(mut self, e: events::Strategy) -> (Book, Result<Accepted, Refusal>)
        requires { FitGiven e }
        ensures { (s : List ℤ) → record_space ≤ length s → Took self.state (E.Strategy e) s s result.0.state result.1 }
    {
        if ill_formed(e) {
            return (self, Err(Refusal::BadDefinition));
        }
        let s = strategy_given(e);
        let k = number_of(self.state, s);
        let n = self.state.defined as usize;
        if k < n {
            return (self, Ok(accepted(k as u32, 0)));
        }
        if Book::STRATEGIES <= n {
            return (self, Err(Refusal::TableFull));
        }
        self.state = add(s, self.state);
        (self, Ok(accepted(k as u32, 0)))
    }

    // Kind 2: a complex order.
    fn order(mut self, e: events::Order, space: &mut [i32]) -> (Book, Result<Accepted, Refusal>)
        requires { FitOrderGiven e × (record_space ≤ length space.old) }
        ensures { Took self.state (E.Order e) space.old space.new result.0.state result.1 }
    {
        match order_refusal(self.state, e) {
            Ok(()) => {}
            Err(refusal) => return (self, Err(refusal)),
        }
        let row = order_given(self.state, e);
        let mut records = Records { space, count: 0 };
        on_order(row, &mut self.state, &mut records);
        (self, Ok(accepted(row.number, records.count)))
    }

    // Kind 3: a sweep.
    fn sweep(mut self, e: events::Sweep, space: &mut [i32]) -> (Book, Result<Accepted, Refusal>)
        requires { FitSweepGiven e × (record_space ≤ length space.old) }
        ensures { Took self.state (E.Sweep e) space.old space.new result.0.state result.1 }
    {
        match sweep_refusal(self.state, e) {
            Ok(()) => {}
            Err(refusal) => return (self, Err(refusal)),
        }
        let row = sweep_given(self.state, e);
        let mut records = Records { space, count: 0 };
        on_sweep(row, &mut self.state, &mut records);
        (self, Ok(accepted(number_taken(row), records.count)))
    }

    // Kind 4: a leg order.
    fn leg_order(
        mut self,
        e: events::LegOrder,
        space: &mut [i32],
    ) -> (Book, Result<Accepted, Refusal>)
        requires { FitLegOrderGiven e × (record_space ≤ length space.old) }
        ensures { Took self.state (E.LegOrder e) space.old space.new result.0.state result.1 }
    {
        match leg_order_refusal(self.state, e) {
            Ok(()) => {}
            Err(refusal) => return (self, Err(refusal)),
        }
        let row = leg_order_given(self.state, e);
        let mut records = Records { space, count: 0 };
        on_leg_order(&mut self.state, row, &mut records);
        (self, Ok(accepted(row.number, records.count)))
    }

    // Kind 5: a cancel.
    fn cancel(mut self, e: events::Cancel, space: &mut [i32]) -> (Book, Result<Accepted, Refusal>)
        requires { (1 ≤ e.number) × (record_space ≤ length space.old) }
        ensures { Took self.state (E.Cancel e) space.old space.new result.0.state result.1 }
    {
        match cancel_refusal(self.state, e) {
            Ok(()) => {}
            Err(refusal) => return (self, Err(refusal)),
        }
        let mut records = Records { space, count: 0 };
        cancel_number(&mut self.state, e.number, &mut records);
        (self, Ok(accepted(0, records.count)))
    }

    // Kind 6: a series opens or shuts.
    fn series(mut self, e: events::Series, space: &mut [i32]) -> (Book, Result<Accepted, Refusal>)
        requires { (e.series < 32) × (record_space ≤ length space.old) }
        ensures { Took self.state (E.Series e) space.old space.new result.0.state result.1 }
    {
        let mut records = Records { space, count: 0 };
        on_series(&mut self.state, e.series as u8, e.state, &mut records);
        (self, Ok(accepted(0, records.count)))
    }

    // Kind 7: the clock.
    fn clock(mut self, e: events::Clock, space: &mut [i32]) -> (Book, Result<Accepted, Refusal>)
        requires { (e.time ≤ 86400000) × (record_space ≤ length space.old) }
        ensures { Took self.state (E.Clock e) space.old space.new result.0.state result.1 }
    {
        match clock_refusal(self.state, e) {
            Ok(()) => {}
            Err(refusal) => return (self, Err(refusal)),
        }
        let mut records = Records { space, count: 0 };
        on_clock(&mut self.state, e.time, &mut records);
        (self, Ok(accepted(0, records.count)))
    }

    // Kind 8: the day's end.
    fn day_end(mut self, e: events::DayEnd, space: &mut [i32]) -> (Book, Result<Accepted, Refusal>)
        requires { ((1 ≤ e.timer) × (e.timer ≤ 5000)) × (record_space ≤ length space.old) }
        ensures { Took self.state (E.DayEnd e) space.old space.new result.0.state result.1 }
    {
        let mut records = Records { space, count: 0 };
        on_day_end(&mut self.state, e.timer, &mut records);
        (self, Ok(accepted(0, records.count)))
    }

    // Kind 9: the national prices of a series.
    fn national(mut self, e: events::National) -> (Book, Result<Accepted, Refusal>)
        requires { (e.series < series_count) × (e.bid ≤ 99999) × (e.offer ≤ 99999) }
        ensures { (s : List ℤ) → record_space ≤ length s → Took self.state (E.National e) s s result.0.state result.1 }
    {
        match national_refusal(e) {
            Ok(()) => {}
            Err(refusal) => return (self, Err(refusal)),
        }
        set_prices(&mut self.state, e.series as u8, quote_given(e));
        (self, Ok(accepted(0, 0)))
    }

    // Kind 10: the execution range.
    fn range(mut self, e: events::Range) -> (Book, Result<Accepted, Refusal>)
        requires { e.range ≤ 9999 }
        ensures { (s : List ℤ) → record_space ≤ length s → Took self.state (E.Range e) s s result.0.state result.1 }
    {
        set_range(&mut self.state, e.range);
        (self, Ok(accepted(0, 0)))
    }

    // Kind 11: the specialist of a strategy.
    fn specialist(mut self, e: events::Specialist) -> (Book, Result<Accepted, Refusal>)
        requires { (1 ≤ e.member) × (e.member ≤ 65535) × (e.strategy < strategy_slots) × (e.percentage ≤ 100) }
        ensures { (s : List ℤ) → record_space ≤ length s → Took self.state (E.Specialist e) s s result.0.state result.1 }
    {
        match specialist_refusal(self.state, e) {
            Ok(()) => {}
            Err(refusal) => return (self, Err(refusal)),
        }
        set_specialist(&mut self.state, e.strategy as u8, specialist_given(e));
        (self, Ok(accepted(0, 0)))
    }

    // A frame of any bytes, with a record space of any length: the answer, the book, and the records in the space. A refused
    // event leaves the book and the space as they were.
    pub fn step(&mut self, frame: &[u8], space: &mut [i32]) -> Result<Accepted, Refusal>
        ensures { Stepped self.old.state frame.now space.old space.new self.new.state result }
    {
        if space.len() < Book::RECORD_SPACE {
            return Err(Refusal::ShortSpace);
        }
        let (book, answer) = match read(frame)? {
            Event::Strategy(e) => self.strategy(e),
            Event::Order(e) => self.order(e, space),
            Event::Sweep(e) => self.sweep(e, space),
            Event::LegOrder(e) => self.leg_order(e, space),
            Event::Cancel(e) => self.cancel(e, space),
            Event::Series(e) => self.series(e, space),
            Event::Clock(e) => self.clock(e, space),
            Event::DayEnd(e) => self.day_end(e, space),
            Event::National(e) => self.national(e),
            Event::Range(e) => self.range(e),
            Event::Specialist(e) => self.specialist(e),
        };
        *self = book;
        answer
    }

    // The live quantity of a number, 0 if none.
    pub fn live_quantity(&self, number: u32) -> u32
        ensures { result ≡ live_quantity self.now.state number }
    {
        lookups::live_quantity(self.state, number)
    }

    // The shut legs of a strategy: how many, and the lowest series.
    pub fn shut_legs(&self, strategy: u32) -> Result<ShutLegs, Refusal>
        ensures { shut_tells result ≡ shut_legs self.now.state strategy }
    {
        lookups::shut_legs(self.state, strategy)
    }

    // The bid and offer net of a strategy, each in cents or unknown.
    pub fn nets(&self, strategy: u32) -> Result<StrategyNets, Refusal>
        ensures { nets_tells result ≡ leg_nets self.now.state strategy }
    {
        lookups::nets(self.state, strategy)
    }

    // The best price of a series and side, and its contracts.
    pub fn depth(&self, series: u32, side: u32) -> Result<Option<Best>, Refusal>
        ensures { depth_tells result ≡ book_depth self.now.state.orders series side }
    {
        lookups::depth(self.state.orders, series, side)
    }

    // The leg orders, as a row of order entries to be lent.
    pub fn order_row(&self) -> [OrderEntry; Book::LEG_ORDERS]
        ensures { result ≡ lent_row self.now.state.orders }
    {
        lookups::row_of(self.state.orders)
    }
}

// What is counted of evenings, and what is printed of it.
use std::io;

// Decisions by their rounds, refusals by their numbers.
#[derive(Clone, Copy)]
pub struct Counts {
    pub evenings: u64,
    pub calls: u64,
    pub zero: [u64; 16],
    pub one: [u64; 16],
    pub spent: u64,
    pub closings: u64,
    pub refusals: [u64; 18],
}

// One more.
pub fn more(count: &mut u64) {
    *count = count.saturating_add(1);
}

// One more in a place, if there is that place.
pub fn more_at(counts: &mut [u64], place: usize) {
    if let Some(count) = counts.get_mut(place) {
        more(count);
    }
}

// Adds numbers to numbers, place by place.
fn add_all(to: &mut [u64], from: &[u64]) {
    for (sum, number) in to.iter_mut().zip(from) {
        *sum = sum.saturating_add(*number);
    }
}

impl Counts {
    pub const NONE: Counts = Counts {
        evenings: 0,
        calls: 0,
        zero: [0; 16],
        one: [0; 16],
        spent: 0,
        closings: 0,
        refusals: [0; 18],
    };

    pub fn add(&mut self, other: &Counts) {
        self.evenings = self.evenings.saturating_add(other.evenings);
        self.calls = self.calls.saturating_add(other.calls);
        self.spent = self.spent.saturating_add(other.spent);
        self.closings = self.closings.saturating_add(other.closings);
        add_all(&mut self.zero, &other.zero);
        add_all(&mut self.one, &other.one);
        add_all(&mut self.refusals, &other.refusals);
    }

    pub fn print(&self, rt: &impl Print) -> io::Result<()> {
        let evenings = self.evenings;
        let calls = self.calls;
        let closings = self.closings;
        let spent = self.spent;
        println!(rt;
            "  {evenings} evenings, {calls} calls, {closings} closings, {spent} ballots spent"
        )?;
        print_places(rt, "decided 0", "in round", &self.zero)?;
        print_places(rt, "decided 1", "in round", &self.one)?;
        print_places(rt, "refused", "with number", &self.refusals)
    }
}

// Prints the numbers that are not 0, each with its place.
fn print_places(rt: &impl Print, what: &str, at: &str, numbers: &[u64]) -> io::Result<()> {
    print!(rt; "  {what}")?;
    for (place, number) in numbers.iter().enumerate() {
        if *number > 0 {
            print!(rt; ", {number} {at} {place}")?;
        }
    }
    println!(rt)
}

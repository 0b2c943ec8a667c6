// A call at one of the tills of a hall; the evening of the hall goes on by it.
ghost use Rattle.std.specs.Prelude.{◌≡◌, ◌<◌, ◌≤◌, IfSome, length, slice_index_or, slice_set};
ghost use Rattle.outcomes.specs.Calls.{Said};
ghost use Rattle.sheets.specs.OfTakings.{takings_bytes};
ghost use Rattle.halls.specs.declared.till.Till.{Till as ATill};
ghost use Rattle.halls.specs.Faults.{fault_told};
ghost use Rattle.halls.specs.Plays.{Seated, GoesOn, HearsNew, one_if};
ghost use Rattle.halls.specs.Scenes.{shown, till, offering, offering_left, hearing, hearing_left, closing, closing_left, recording, recording_output};
ghost use Rattle.halls.specs.States.{setting_of};
ghost use Rattle.halls.specs.Sweeps.{is_new, some_new, positions, pass_answer, pass_left};
ghost use Rattle.halls.specs.Tills.{held_by};

use crate::packet::{LONGEST, message_in};
use crate::till::{Fault, Till};
use basis::heard::Heard;
use scripts::command::RuleName;
use sheets::kinds::Takings;

// A message that was passed on: its position, and whether it was new to the hearer.
#[derive(Clone, Copy)]
pub struct Passed {
    pub position: u32,
    pub news: bool,
}

// A till offers takings.
pub fn offer_at(
    tills: &mut Vec<Till>,
    n: u8,
    rule: RuleName,
    number: u8,
    sheet: &Takings,
) -> Result<(), Fault>
    requires seated { Seated n tills.old.items }
    requires counted { length tills.old.items ≡ n }
    requires low { number < n }
    ensures seated { Seated n tills.new.items }
    ensures counted { length tills.new.items ≡ n }
    ensures answer { fault_told result ≡ offering rule n number (till number (shown tills.old.items)) }
    ensures left { shown tills.new.items ≡ slice_set (shown tills.old.items) number (offering_left rule n number (takings_bytes sheet.now) (till number (shown tills.old.items))) }
    ensures goes_on { GoesOn rule n tills.old.items tills.new.items }
{
    tills[usize::from(number)].offer(rule, sheet)
}

// A till hears what another has said.
pub fn hear_at(
    tills: &mut Vec<Till>,
    n: u8,
    rule: RuleName,
    number: u8,
    sender: u8,
    packet: &[u8],
) -> Result<Heard, Fault>
    requires seated { Seated n tills.old.items }
    requires counted { length tills.old.items ≡ n }
    requires low { number < n }
    requires said { (d : ATill) → sender < n → Said (setting_of rule) n sender (held_by (slice_index_or tills.old.items sender d)) packet.now }
    ensures seated { Seated n tills.new.items }
    ensures counted { length tills.new.items ≡ n }
    ensures answer { fault_told result ≡ hearing rule n number sender packet.now (till number (shown tills.old.items)) }
    ensures left { shown tills.new.items ≡ slice_set (shown tills.old.items) number (hearing_left rule n number sender packet.now (till number (shown tills.old.items))) }
    ensures hears_new { HearsNew rule n (one_if (is_new (fault_told result))) tills.old.items tills.new.items }
{
    tills[usize::from(number)].hear(rule, sender, packet)
}

// Whether a till answers that a message is new.
fn is_news(heard: &Result<Heard, Fault>) -> bool
    ensures { result ≡ is_new (fault_told heard.now) }
{
    matches!(heard, Ok(Heard::New))
}

// A till says its first message at or after a position, and another hears it.
pub fn pass_at(
    tills: &mut Vec<Till>,
    n: u8,
    rule: RuleName,
    from: u8,
    to: u8,
    position: u32,
) -> Option<Passed>
    requires small { n ≤ 16 }
    requires seated { Seated n tills.old.items }
    requires counted { length tills.old.items ≡ n }
    requires from_low { from < n }
    requires to_low { to < n }
    ensures seated { Seated n tills.new.items }
    ensures counted { length tills.new.items ≡ n }
    ensures answer { result ≡ pass_answer rule n from to position (shown tills.old.items) }
    ensures left { shown tills.new.items ≡ pass_left rule n from to position (shown tills.old.items) }
    ensures inside { IfSome result (λ a. a.position < positions) }
    ensures hears_new { HearsNew rule n (one_if (some_new result)) tills.old.items tills.new.items }
{
    let mut out = [0u8; LONGEST];
    let Ok(Some(position)) = tills[usize::from(from)].say(rule, position, &mut out) else {
        return None;
    };
    let heard = hear_at(tills, n, rule, to, from, message_in(&out));
    Some(Passed {
        position,
        news: is_news(&heard),
    })
}

// A till closes.
pub fn close_at(tills: &mut Vec<Till>, n: u8, rule: RuleName, number: u8) -> Result<(), Fault>
    requires seated { Seated n tills.old.items }
    requires counted { length tills.old.items ≡ n }
    requires low { number < n }
    ensures seated { Seated n tills.new.items }
    ensures counted { length tills.new.items ≡ n }
    ensures answer { fault_told result ≡ closing n (till number (shown tills.old.items)) }
    ensures left { shown tills.new.items ≡ slice_set (shown tills.old.items) number (closing_left rule n number (till number (shown tills.old.items))) }
    ensures goes_on { GoesOn rule n tills.old.items tills.new.items }
{
    tills[usize::from(number)].close()
}

// A till gives its closing record.
pub fn record_at(tills: &Vec<Till>, n: u8, number: u8, out: &mut [u8]) -> Result<usize, Fault>
    requires seated { Seated n tills.now.items }
    requires counted { length tills.now.items ≡ n }
    requires low { number < n }
    ensures answer { fault_told result ≡ recording n out.old (till number (shown tills.now.items)) }
    ensures output { out.new ≡ recording_output n out.old (till number (shown tills.now.items)) }
{
    tills[usize::from(number)].record(out)
}

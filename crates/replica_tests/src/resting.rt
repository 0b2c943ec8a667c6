// Letting replicas hear each other until nothing that is said is new to anybody, and closing them.
use crate::replicas::{Replica, is_written};
use basis::heard::Heard;
use coins::coin::Coin;
use replica::states::Running;
use sheets::sheet::Sheet;
use std::process::Abort;
use std::test::Fail;

// More than a replica can have said, and more sweeps than bring anything new.
const MOST_SAID: usize = 2000;

const MOST_SWEEPS: usize = 100;

pub type Player<S, C, const THIRD: bool> = Replica<Running, S, C, THIRD>;

// Lets one replica hear all that another has said, positions rising; answers whether anything was new.
fn carry<S: Sheet, C: Coin + Copy, const THIRD: bool>(
    hall: &mut [Player<S, C, THIRD>],
    sender: usize,
    hearer: usize,
) -> Result<bool, Fail> {
    let mut out = [0u8; 40];
    let mut news = false;
    let mut from = 0;
    for _ in 0..MOST_SAID {
        let (own, said) = match hall.get(sender) {
            Some(player) => (player.own, player.say(from, &mut out)),
            None => return Err(Fail::new("no sender")),
        };
        let Ok(Some(position)) = said else {
            return Ok(news);
        };
        let end = 3 + usize::from(out[2]);
        let (Some(packet), Some(player)) = (out.get(..end), hall.get_mut(hearer)) else {
            return Err(Fail::new("no whole message, or no hearer"));
        };
        match player.hear(own, packet) {
            Ok(Heard::New) => news = true,
            Ok(Heard::Known) => {},
            Err(_) => return Err(Fail::new("an honest message is refused")),
        }
        from = position.saturating_add(1);
    }
    Err(Fail::new("too much is said"))
}

// One sweep; answers whether anything was new.
fn sweep<S: Sheet, C: Coin + Copy, const THIRD: bool>(
    hall: &mut [Player<S, C, THIRD>],
) -> Result<bool, Fail> {
    let mut news = false;
    for sender in 0..hall.len() {
        for hearer in 0..hall.len() {
            if sender != hearer {
                news |= carry(hall, sender, hearer)?;
            }
        }
    }
    Ok(news)
}

// Lets all of them hear each other until nothing is new.
pub fn rest<S: Sheet, C: Coin + Copy, const THIRD: bool>(
    hall: &mut [Player<S, C, THIRD>],
) -> Result<(), Fail> {
    for _ in 0..MOST_SWEEPS {
        if !sweep(hall)? {
            return Ok(());
        }
    }
    Err(Fail::new("no rest"))
}

// Looks, which at rest changes nothing, closes, and gives this record.
pub fn check_record<S: Sheet, C: Coin + Copy, const THIRD: bool>(
    rt: &impl Abort,
    mut player: Player<S, C, THIRD>,
    record: &[u8],
) -> Result<(), Fail> {
    assert_eq!(rt; player.look(), Ok(()));
    let Ok(closed) = player.close() else {
        return Err(Fail::new("a ballot is undecided or a sheet missing"));
    };
    let mut out = [0xeeu8; 200];
    assert_eq!(rt; closed.record(&mut out), Ok(record.len()));
    assert!(rt; is_written(&out, record));
    Ok(())
}

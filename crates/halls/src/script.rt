// Plays a whole script, and makes all that it prints.
ghost use Rattle.std.specs.Prelude.{◌≡◌, IfOk, IfErr, string_bytes};
ghost use Rattle.halls.specs.declared.player.Stop.TheVariants.{Memory as IsMemory};
ghost use Rattle.halls.specs.Scripts.{Added, scene_in, script_printed};

use crate::player::{Player, Stop};
use std::alloc::Global;
use text::words::split_line;

// Plays a line, and appends what it prints, or the number of the line where it is a fault. Whether the script goes on.
fn push_line(
    heap: Global,
    out: &mut String,
    player: &mut Player,
    number: u64,
    line: &[u8],
) -> Result<bool, Stop>
    ensures added { IfOk result (λ on. Added number line.now (scene_in player.old.hall) (scene_in player.new.hall) (string_bytes out.old) (string_bytes out.new) on) }
    ensures fails { IfErr result (λ e. e ≡ IsMemory) }
{
    match player.play(line) {
        Ok(printed) => {
            out.push_str(printed.as_str())?;
            Ok(true)
        }
        Err(Stop::Fault) => {
            let fault = format!(in heap; "script {number}\n")?;
            out.push_str(fault.as_str())?;
            Ok(false)
        }
        Err(Stop::Memory) => Err(Stop::Memory),
    }
}

// All that a script prints, from its first line to its last, or to its first fault.
pub fn play_all(heap: Global, text: &[u8]) -> Result<String, Stop>
    ensures printed { IfOk result (λ s. string_bytes s ≡ script_printed text.now) }
    ensures fails { IfErr result (λ e. e ≡ IsMemory) }
{
    let mut out = String::new(heap);
    let mut player = Player::new(heap);
    let mut number = 1u64;
    let mut rest = text;
    while let Some((line, more)) = split_line(rest) {
        if !push_line(heap, &mut out, &mut player, number, line)? {
            return Ok(out);
        }
        number += 1;
        rest = more;
    }
    Ok(out)
}

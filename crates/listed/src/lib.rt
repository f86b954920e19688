// A playlist for programs in other languages (document 02, E14): the answer as one number.

#![tactic(auto)]

ghost use Rattle.std.specs.Prelude.{◌≡◌, Err};
ghost use Rattle.exporting.specs.Playlists.{told, playlisted, playlist_export};
ghost use Rattle.playlist.specs.Answers.{outcome};

use playlist::Stopped;

// What a place counts in the answer.
const PLACE: u32 = 256;

// The number of a refusal of the list, or 256 times the place of the programme that was refused, and its number.
fn stopped_number(stopped: Stopped) -> u32
    ensures { result ≡ told (outcome (Err stopped)) }
{
    match stopped {
        Stopped::List(refusal) => u32::from(refusal),
        Stopped::Programme { place, refusal } => PLACE * place as u32 + u32::from(refusal),
    }
}

// The answer as one number, 0 where all are planned.
fn number_of(answer: Result<(), Stopped>) -> u32
    ensures { result ≡ told (outcome answer) }
{
    match answer {
        Ok(()) => 0,
        Err(stopped) => stopped_number(stopped),
    }
}

// Plans the programmes of a playlist.
pub fn plan_list(
    bytes: &[u8],
    programmes: &[u32],
    table: &mut [u32],
    entries: &mut [u8],
    totals: &mut [u64],
) -> u32
    ensures { playlisted result table.new entries.new totals.new ≡ playlist_export bytes.now programmes.now table.old entries.old totals.old }
{
    number_of(playlist::plan_list(bytes, programmes, table, entries, totals))
}

// A playlist (document 02, E14): programmes that are sent back to back, each planned from the bucket levels at which the last one ended. It uses the planner through its contracts alone.
// The entries of the list are pairs of numbers; `programme` turns structs into them.

#![tactic(auto)]

ghost use Rattle.std.specs.Prelude.{◌≡◌, ◌+◌, ◌*◌, ◌≤◌, length};
ghost use Rattle.std.specs.Option.{option_to_list};
ghost use Rattle.base.specs.Lent.{over_at};
ghost use Rattle.format.specs.JobBytes.{job_in};
ghost use Rattle.header.specs.Answers.{plain};
ghost use Rattle.interval.specs.Answers.{totals_of};
ghost use Rattle.planner.specs.Answers.{levels_of_buckets};
ghost use Rattle.playlists.specs.Calls.{five, plan_turn, part_turn, turn, playlist_call};
ghost use Rattle.playlist.specs.Answers.{played, turned, stands, programme, starts_at, Lasts, LeadsTo, led_by, second_led, alike, end_for, Room, Opened, Going, runs};

use best::Order;
use header::{Door, Header, Refusal};
use interval::Totals;
use job::Reading;
use pinset::PinSet;
use planner::{Aim, BucketLevels};

// Why not all programmes are planned: a refusal of the list, or that of a programme, with its place, counted from 1.
#[derive(Clone, Copy, Debug, PartialEq, Eq)]
pub enum Stopped {
    List(Refusal),
    Programme { place: u8, refusal: Refusal },
}

// Between two programmes: how many are planned, how many bytes their plans take, and the bucket levels at which the last one ended, if there is one.
#[derive(Clone, Copy)]
struct Standing {
    done: usize,
    used: usize,
    levels: Option<BucketLevels>,
}

// The most entries of a list, and how many numbers each has; how many totals a programme has.
const MOST: usize = 64;

const PAIR: usize = 2;

const EACH: usize = 5;

// The bucket levels from which a programme is planned: the carried ones, of the first its own.
fn levels_for(header: Header, standing: Standing) -> BucketLevels
    ensures { levels_of_buckets result ≡ starts_at (plain header) standing }
{
    match standing.levels {
        Some(levels) => levels,
        None => BucketLevels::start(header),
    }
}

// A bucket's level at a programme's end, by the balance of what was sent, drained and left unused.
fn level_after(level: u16, sent: u32, unused: u32, drained: u32) -> u16
    requires { Lasts level sent unused drained }
    ensures { drained + result ≡ level + sent + unused }
{
    (level as u32 + sent + unused - drained) as u16
}

// The second bucket's, where there is one.
fn second_after(header: Header, from: BucketLevels, totals: Totals) -> Option<u16>
    requires { LeadsTo (plain header) from totals }
    ensures { option_to_list result ≡ second_led (plain header) from totals }
{
    let intervals = header.units as u32 + header.delay as u32;
    let bucket = header.second?;
    Some(level_after(
        from.bucket2?,
        totals.channel,
        totals.unused2?,
        intervals * bucket.drain as u32,
    ))
}

// The levels at which a programme ends, by the totals of its plan.
fn levels_after(header: Header, from: BucketLevels, totals: Totals) -> BucketLevels
    requires { LeadsTo (plain header) from totals }
    ensures { levels_of_buckets result ≡ led_by (plain header) from totals }
{
    let intervals = header.units as u32 + header.delay as u32;
    let bucket = level_after(
        from.bucket,
        totals.channel,
        totals.unused,
        intervals * header.first.drain as u32,
    );
    BucketLevels {
        bucket,
        bucket2: second_after(header, from, totals),
    }
}

// A programme's totals go to its own places of the list: 0 for the second bucket where there is none.
fn put_totals(list: &mut [u64], done: usize, totals: Totals)
    requires { (done + 1) * 5 ≤ length list.old }
    ensures { list.new ≡ over_at (5 * done) (five (totals_of totals)) list.old }
{
    let at = EACH * done;
    list[at..at + EACH].copy_from_slice(&[
        totals.distortion as u64,
        totals.source as u64,
        totals.channel as u64,
        totals.unused as u64,
        totals.unused2.unwrap_or(0) as u64,
    ]);
}

// Where the entries end that a programme's plan may take: with the list, and where its totals have no place, at once.
fn end_for(standing: Standing, entries: usize, totals: usize) -> usize
    requires { standing.done + 1 ≤ 64 }
    ensures { result ≡ end_for standing entries totals }
{
    if totals < EACH * (standing.done + 1) {
        return standing.used;
    }
    entries
}

// Plans a programme that was opened, without pins and in the late order: its entries go behind those before it.
fn plan_opened(
    job: &[u8],
    header: Header,
    standing: Standing,
    table: &mut [u32],
    entries: &mut [u8],
    totals: &mut [u64],
) -> Result<Standing, Refusal>
    requires { Opened job.now (plain header) standing × Room standing entries.old }
    ensures { turned result standing table.new entries.new totals.new ≡ plan_turn job.now (job_in job.now) (stands standing table.old entries.old totals.old) }
{
    let set = PinSet::fresh(header);
    let from = levels_for(header, standing);
    let used = standing.used;
    let end = end_for(standing, entries.len(), totals.len());
    let sum = planner::plan_from(
        job,
        set,
        from,
        Aim::Total,
        Order::Late,
        table,
        &mut entries[used..end],
    )?;
    put_totals(totals, standing.done, sum);
    Ok(Standing {
        done: standing.done + 1,
        used: used + entry::SIZE * entry::intervals(header),
        levels: Some(levels_after(header, from, sum)),
    })
}

// Whether a job has as many buckets as those before it, if there are any.
fn alike(standing: Standing, header: Header) -> bool
    ensures { result ≡ alike (plain header) standing }
{
    match standing.levels {
        None => true,
        Some(levels) => levels.bucket2.is_some() == header.second.is_some(),
    }
}

// Plans a programme whose bytes are these: the numbers of opening, then 22 where bytes are left behind its job or it has another number of buckets.
fn plan_part(
    job: &[u8],
    standing: Standing,
    table: &mut [u32],
    entries: &mut [u8],
    totals: &mut [u64],
) -> Result<Standing, Refusal>
    requires { Room standing entries.old }
    ensures { turned result standing table.new entries.new totals.new ≡ part_turn job.now (stands standing table.old entries.old totals.old) }
{
    let Reading { header, taken } = job::read(job, Door::Opening)?;
    if taken != job.len() {
        return Err(Refusal::Programme);
    }
    if !alike(standing, header) {
        return Err(Refusal::Programme);
    }
    plan_opened(job, header, standing, table, entries, totals)
}

// One programme of the list: 22 where it passes the slice.
fn plan_programme(
    bytes: &[u8],
    first: usize,
    size: usize,
    standing: Standing,
    table: &mut [u32],
    entries: &mut [u8],
    totals: &mut [u64],
) -> Result<Standing, Refusal>
    requires { Room standing entries.old }
    ensures { turned result standing table.new entries.new totals.new ≡ turn bytes.now (programme first size) (stands standing table.old entries.old totals.old) }
{
    if bytes.len() < first {
        return Err(Refusal::Programme);
    }
    if bytes.len() - first < size {
        return Err(Refusal::Programme);
    }
    let end = first + size;
    plan_part(&bytes[first..end], standing, table, entries, totals)
}

// One programme after another, up to the first that is refused.
fn plan_all(
    bytes: &[u8],
    numbers: &[u32],
    count: usize,
    table: &mut [u32],
    entries: &mut [u8],
    totals: &mut [u64],
) -> Result<(), Stopped>
    requires { Going numbers.now count }
    ensures { played result table.new entries.new totals.new ≡ runs bytes.now numbers.now table.old entries.old totals.old }
{
    let mut standing = Standing {
        done: 0,
        used: 0,
        levels: None,
    };
    for at in 0..count {
        let first = numbers[PAIR * at] as usize;
        let size = numbers[PAIR * at + 1] as usize;
        match plan_programme(bytes, first, size, standing, table, entries, totals) {
            Ok(next) => standing = next,
            Err(refusal) => {
                return Err(Stopped::Programme {
                    place: (at + 1) as u8,
                    refusal,
                });
            }
        }
    }
    Ok(())
}

// Plans the programmes of a list, each a job's first byte and its length in `bytes`, one after another. Plans stand behind each other in `entries`, totals, five a programme, in `totals`; each planning writes its table to `table`. Work stops at the first programme that is refused.
pub fn plan_list(
    bytes: &[u8],
    numbers: &[u32],
    table: &mut [u32],
    entries: &mut [u8],
    totals: &mut [u64],
) -> Result<(), Stopped>
    ensures { played result table.new entries.new totals.new ≡ playlist_call bytes.now numbers.now table.old entries.old totals.old }
{
    let count = numbers.len() / PAIR;
    if numbers.len() != PAIR * count {
        return Err(Stopped::List(Refusal::Playlist));
    }
    if (count < 1) | (count > MOST) {
        return Err(Stopped::List(Refusal::Playlist));
    }
    plan_all(bytes, numbers, count, table, entries, totals)
}

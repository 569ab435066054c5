// The screen call (document 02, item 10): the client data that a reading of the chosen job gives, a part of that job's capture and of no other.
// Meaning: specs/.
#![tactic(auto)]

ghost use Rattle.std.specs.Prelude.{◌≡◌};
ghost use Rattle.table.specs.Entries.{entries_of};
ghost use Rattle.receive.specs.Values.{answer_part};
ghost use Rattle.jobs.specs.Jobs.{of_job, screen_data};

use receive::Answer;
use station::{Part, Settings};

// The octets, or the marks, of the capture that the job's number chooses; a job above 1 has none. Both have one lifetime: a slice cannot be shortened.
#[tactic(auto, unfolding(crate::specs::Jobs::of_job))]
pub fn of_job<'a>(job: u8, zeroth: &'a [u8], first: &'a [u8]) -> &'a [u8]
    ensures { result.now ≡ of_job job zeroth.now first.now }
{
    match job {
        0 => zeroth,
        1 => first,
        _ => &zeroth[..0],
    }
}

// The part that an answer hands out.
fn part_of(answer: Answer) -> Part
    ensures { result ≡ answer_part answer }
{
    if let Answer::Counted(_, _, part, _) = answer {
        part
    } else {
        Part { at: 0, len: 0 }
    }
}

// The screen call: of a job that is refused, and where nothing is handed out, no octets.
#[tactic(auto, unfolding(crate::specs::Jobs::screen_data, crate::specs::Jobs::screen_answer))]
pub fn screen_data<'a>(
    s: Settings,
    job: u8,
    table: &[u8; 128],
    octets0: &'a [u8],
    marks0: &'a [u8],
    octets1: &'a [u8],
    marks1: &'a [u8],
    place: usize,
) -> &'a [u8]
    ensures { result.now ≡ screen_data s job (entries_of table.now)
        octets0.now marks0.now octets1.now marks1.now place }
{
    let octets = of_job(job, octets0, octets1);
    let marks = of_job(job, marks0, marks1);
    // no state has a part in an answer
    let state = station::fresh_state();
    let reading = receive::read(s, job, table, state, octets, marks, place);
    receive::client_data(octets, part_of(reading.answer))
}

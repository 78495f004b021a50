//! Records of the profile with integers of any number of bytes.
ghost use Rattle.std.specs.Prelude.{◌≡◌, ◌≢◌};
ghost use Rattle.oas_record.specs.Refusals.{IsKnown};
ghost use Rattle.oas_long_integers.specs.AnyLength.{first_of};
ghost use Rattle.oas_long_integers.specs.Reading.{ReadsRecord, Judges};

use crate::places::Place;
use crate::sources::{ShortenedSource, Start};
use oas_num::{Ending, Source, Why};
use oas_record::Record;
use std::alloc::Global;
use std::marker::Brand;

/// The place of the first byte after an id: an info byte is in no integer.
fn first_of(id: u64) -> Place
    ensures { result ≡ first_of id }
{
    if id < 17 {
        Place::Groups(0)
    } else {
        Place::Free
    }
}

/// The result of a read, by where it ended. No read ends within an integer after a record; if one did, the record would be
/// dropped, as if out of memory.
fn judged(outcome: Result<Record, Why>, place: Place, ending: Ending) -> Result<Record, Why>
    ensures { Judges outcome place ending result }
{
    match outcome {
        Ok(record) => match place {
            Place::Tenth(_) => Err(Why::Memory),
            _ => Ok(record),
        },
        Err(Why::Read) => match ending {
            Ending::TooLong => Err(Why::InputTooLong),
            _ => Err(Why::Read),
        },
        Err(why) => Err(why),
    }
}

/// The same as `read_after`, for the source that is named. It hands the borrow back, so that its lender knows it as its own.
fn read_named<'a, S: Source, K: Start>(
    alloc: Global,
    id: u64,
    source: &'a mut S,
) -> (Result<Record, Why>, &'a mut S)
    requires known { IsKnown id }
    requires inner { id ≢ 2 }
    requires turned { id ≢ 18 }
    requires named { source.ghost_name ≡ K.name }
    requires starts { S.script source.old ≡ K.script }
    requires first { K.first ≡ first_of id }
    ensures same { result.1.ghost_name ≡ source.entry.ghost_name }
    ensures reads { ReadsRecord id (S.script source.old) result.0 (S.script result.1.now) }
{
    let mut shortened: ShortenedSource<'a, S, K> = ShortenedSource::new(source, first_of(id));
    let outcome = Record::read_after(alloc, id, &mut shortened);
    let ShortenedSource {
        source,
        place,
        kept: _,
        ending,
        start: _,
    } = shortened;
    (judged(outcome, place, ending), source)
}

/// What follows an id of the profile, except that of END and of placements by reals, with integers of any number of bytes.
pub fn read_after<S: Source>(alloc: Global, id: u64, source: &mut S) -> Result<Record, Why>
    requires known { IsKnown id }
    requires inner { id ≢ 2 }
    requires turned { id ≢ 18 }
    ensures { ReadsRecord id (S.script source.old) result (S.script source.new) }
{
    let (read, _source) = read_named::<S, Brand>(alloc, id, source);
    read
}

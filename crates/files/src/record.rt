// One record of a board file (document 01, "The board file").
ghost use Rattle.std.specs.Prelude.{◌≡◌, ◌+◌, ◌≤◌, length, take, drop};
ghost use Rattle.board.specs.Sizes.{most_body};
ghost use Rattle.board.specs.File.{body_bytes, record_of, read_record};
ghost use Rattle.board.specs.EntryPoints.{record_means, read_means};
ghost use Rattle.files.specs.Private.Kinds.{kind_number, KindOf};

use board::{Found, Record, Refusal, RefusedAt};

// The four kinds of record, by their kind bytes.
#[derive(Clone, Copy)]
pub(crate) enum Kind {
    Count = 1,
    Hypothesis = 2,
    Rule = 3,
    End = 4,
}

impl TryFrom<u8> for Kind {
    type Error = Refusal;

    ghost try_from_gives = { KindOf };

    fn try_from(byte: u8) -> Result<Kind, Refusal> {
        match byte {
            1 => Ok(Kind::Count),
            2 => Ok(Kind::Hypothesis),
            3 => Ok(Kind::Rule),
            4 => Ok(Kind::End),
            _ => Err(Refusal::Kind),
        }
    }
}

impl Kind {
    // How many bytes follow a kind byte.
    fn body_bytes(self) -> usize
        ensures { result ≡ body_bytes (kind_number self) }
    {
        match self {
            Kind::Count => 1,
            Kind::Hypothesis => 5,
            Kind::Rule => 9,
            Kind::End => 0,
        }
    }

    // The record of this kind whose body these bytes begin with.
    fn read_body(self, body: &[u8]) -> Record
        requires { body_bytes (kind_number self) ≤ length body.now }
        ensures { record_means result ≡ record_of (kind_number self) body.now 0 }
    {
        match self {
            Kind::Count => Record::Count(body[0]),
            Kind::Hypothesis => {
                let [d, a, low, middle, high] = *body.first_chunk::<5>().unwrap();
                Record::Hypothesis(d, a, u32::from_le_bytes([low, middle, high, 0]))
            }
            Kind::Rule => Record::Rule(body[0], *eight_bytes(body, 1)),
            Kind::End => Record::End,
        }
    }
}

// The eight bytes from `at` on, where they stand.
pub(crate) fn eight_bytes(bytes: &[u8], at: usize) -> &[u8; 8]
    requires { at + most_body ≤ length bytes.now }
    ensures { result.now ≡ take most_body (drop at bytes.now) }
{
    bytes[at..].first_chunk().unwrap()
}

// Reads the record at a place of a board file. A place past the end counts as the file's length.
// At most some 100 basic steps, whatever the file. Written into its callers, since loading calls it for each record: called, it took a third more there.
#[inline(always)]
pub fn read_record(file: &[u8], at: usize) -> Result<Found, RefusedAt>
    ensures { read_means result ≡ read_record file.now at }
{
    let Some(byte) = file.get(at) else {
        return Err(RefusedAt {
            refusal: Refusal::CutOff,
            place: file.len(),
        });
    };
    let kind = Kind::try_from(*byte).map_err(|refusal| RefusedAt { refusal, place: at })?;
    let next = at + 1 + kind.body_bytes();
    if file.len() < next {
        return Err(RefusedAt {
            refusal: Refusal::CutOff,
            place: at,
        });
    }
    Ok(Found {
        record: kind.read_body(&file[at + 1..]),
        next,
    })
}

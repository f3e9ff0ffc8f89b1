// The clause file of a sheet as a whole: how many variables, clauses and bytes it has, and all its lines at once.
#![tactic(auto)]

ghost use Rattle.std.specs.Prelude.{◌≡◌, length};
ghost use Rattle.model.specs.Sheet.{sheet_of};
ghost use Rattle.model.specs.Range.{Admitted};
ghost use Rattle.calls.specs.Calls.{clause_counts, counting, filing, Writes};
ghost use Rattle.filing.specs.Answer.{number_of, three_counts, counted, filed};
ghost use Rattle.filing.specs.declared.Refusal.TheVariants.{Sheet};

// What counting answers: the variables, the clauses, and the file's bytes.
#[derive(Clone, Copy)]
pub struct ClauseCounts {
    pub variables: usize,
    pub clauses: usize,
    pub bytes: usize,
}

// What writing the file refuses: what counting refuses, and 29.
#[derive(Clone, Copy, Debug, PartialEq, Eq)]
pub enum Refusal {
    Sheet(sheet::Refusal),
    Room,
}

impl From<sheet::Refusal> for Refusal {
    ghost from_gives = { λ found r. r ≡ Sheet found };

    fn from(found: sheet::Refusal) -> Refusal {
        Refusal::Sheet(found)
    }
}

// Document 01's number of a refusal.
impl From<Refusal> for u8 {
    ghost from_gives = { λ refusal r. r ≡ number_of refusal };

    fn from(refusal: Refusal) -> u8 {
        match refusal {
            Refusal::Sheet(found) => u8::from(found),
            Refusal::Room => 29,
        }
    }
}

// The counts of an accepted sheet.
fn clause_counts(sheet: &[u8]) -> ClauseCounts
    requires { Admitted sheet.now }
    ensures { three_counts result ≡ clause_counts (sheet_of sheet.now) }
{
    let variables = numbering::variable_count(sheet);
    let clauses = counting::clause_count(sheet);
    let bytes = size_file::file_size(sheet, variables, clauses);
    ClauseCounts {
        variables,
        clauses,
        bytes,
    }
}

// Counts a sheet's variables, clauses and its clause file's bytes: the three counts, or the sheet's refusal. Any bytes are allowed.
#[tactic(auto, using(crate::proofs::Refused::count_refused, crate::proofs::Refused::count_accepted))]
pub fn count(sheet: &[u8]) -> Result<ClauseCounts, sheet::Refusal>
    ensures { counted result ≡ counting sheet.now }
{
    sheet::read(sheet)?;
    Ok(clause_counts(sheet))
}

// Writes the whole clause file into the buffer: the file's length, or the first refusal. Any bytes are allowed. Bytes after the file, and on a refusal all, are
// as they were: whether the buffer is long enough is known before a byte is written.
pub fn write_file(sheet: &[u8], buf: &mut [u8]) -> Result<usize, Refusal>
    ensures { Writes (filing sheet.now (length buf.old)) buf.old (filed result) buf.new }
{
    let counts = count(sheet)?;
    if buf.len() < counts.bytes {
        return Err(Refusal::Room);
    }
    Ok(rendering::put_file(buf, sheet))
}

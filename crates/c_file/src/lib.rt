// For C: counting the clause file and writing all of it. `engine` says what each returns and writes; a refusal is returned as minus its number, and leaves
// what is lent.
#![tactic(auto)]

ghost use Rattle.std.specs.Prelude.{◌≡◌, length};
ghost use Rattle.calls.specs.Calls.{counting, filing};
ghost use Rattle.c_answer.specs.Returned.{returned, lent_after, Handed};

use c_answer::minus;

// `tpl_count`: variables, clauses and the file's bytes go to `counts`.
pub fn count(sheet: &[u8], counts: &mut [u64; 3]) -> i64
    ensures { (result ≡ returned (counting sheet.now)) × (counts.new ≡ lent_after (counting sheet.now) counts.old) }
{
    match filing::count(sheet) {
        Ok(found) => {
            let variables = found.variables as u64;
            let clauses = found.clauses as u64;
            let bytes = found.bytes as u64;
            *counts = [variables, clauses, bytes];
            0
        }
        Err(first) => minus(u8::from(first)),
    }
}

// `tpl_file`: the length of the file that was written.
pub fn file(sheet: &[u8], file: &mut [u8]) -> i64
    ensures { Handed (filing sheet.now (length file.old)) file.old result file.new }
{
    match filing::write_file(sheet, file) {
        Ok(n) => n as i64,
        Err(refusal) => minus(u8::from(refusal)),
    }
}

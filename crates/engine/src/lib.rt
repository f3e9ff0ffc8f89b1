// The public calls for C and Rust. Each returns minus a refusal's number, or its answer, 0 or more; what is lent to it is
// untouched on a refusal. Each is one call of a function below it with the same contract, which does the work.
#![tactic(auto)]

ghost use Rattle.std.specs.Prelude.{◌≡◌, length};
ghost use Rattle.calls.specs.Calls.{reading, checking, spelling, searching, counting, writing, filing, replying, comparing, comparing_hours};
ghost use Rattle.c_answer.specs.Returned.{returned, lent_after, Handed, HandedOver, Decided, Explained};

// Reads a sheet of any bytes. Returns 0, with its four counts (letters, fields, pairs, rules) in `counts`; or minus
// document 01's number of the first refusal, with `counts` as it was.
#[unsafe(no_mangle)]
pub extern "C" fn tpl_read(sheet: &[u8], counts: &mut [u64; 4]) -> i64
    ensures { (result ≡ returned (reading sheet.now)) × (counts.new ≡ lent_after (reading sheet.now) counts.old) }
{
    c_sheet::read(sheet, counts)
}

// Checks a filling, of any bytes. Returns 1 for a clash, with `why` as it was; 0 for none, with the cause in `why`: 1, the first pair that differs, how many letters
// agree, the side of the rest and its length; or else 2, the first rule broken, and three zeros. Or it returns minus document 01's number of the first refusal, with
// `why` as it was.
#[unsafe(no_mangle)]
pub extern "C" fn tpl_check(sheet: &[u8], filling: &[u8], why: &mut [u64; 5]) -> i64
    ensures { Explained (checking sheet.now filling.now) why.old result why.new }
{
    c_sheet::check(sheet, filling, why)
}

// Spells one template under a filling, into `text`: of a pair the left one for side 0, the right one for side 1. Returns the text's
// length, with later bytes as they were; or minus document 01's number of the first refusal, with all bytes as they were.
#[unsafe(no_mangle)]
pub extern "C" fn tpl_spell(
    sheet: &[u8],
    pair: u64,
    side: u64,
    filling: &[u8],
    text: &mut [u8],
) -> i64
    ensures { Handed (spelling sheet.now pair side filling.now (length text.old)) text.old result text.new }
{
    c_sheet::spell(sheet, pair, side, filling, text)
}

// Searches a sheet for a clash. Returns 1 for a clash, with the first filling that clashes in the first 9 bytes of `filling` for each field and later
// bytes as they were; 0 where the sheet is apart, or minus document 01's number of the first refusal, with all bytes as they were.
#[unsafe(no_mangle)]
pub extern "C" fn tpl_search(sheet: &[u8], filling: &mut [u8]) -> i64
    ensures { Decided (searching sheet.now (length filling.old)) filling.old result filling.new }
{
    c_search::search(sheet, filling)
}

// Counts the variables and clauses of a sheet's clause file, and its bytes. Returns 0, with the variables, the clauses and the bytes in `counts`; or minus
// document 01's number of the first refusal, with `counts` as it was.
#[unsafe(no_mangle)]
pub extern "C" fn tpl_count(sheet: &[u8], counts: &mut [u64; 3]) -> i64
    ensures { (result ≡ returned (counting sheet.now)) × (counts.new ≡ lent_after (counting sheet.now) counts.old) }
{
    c_file::count(sheet, counts)
}

// Writes line `line` of a sheet's clause file into `text`. Returns the line's length, with later bytes as they were; or minus document
// 01's number of the first refusal, with all bytes as they were.
#[unsafe(no_mangle)]
pub extern "C" fn tpl_line(sheet: &[u8], line: u64, text: &mut [u8]) -> i64
    ensures { Handed (writing sheet.now line (length text.old)) text.old result text.new }
{
    c_clauses::line(sheet, line, text)
}

// Writes a sheet's whole clause file into `file`, its lines one after the other. Returns the file's length, with later bytes as they were; or minus document
// 01's number of the first refusal, with all bytes as they were.
#[unsafe(no_mangle)]
pub extern "C" fn tpl_file(sheet: &[u8], file: &mut [u8]) -> i64
    ensures { Handed (filing sheet.now (length file.old)) file.old result file.new }
{
    c_file::file(sheet, file)
}

// Reads a solver's reply to a sheet's clause file. Returns 0 for a reply that is accepted, with the filling that it spells, which clashes, in the
// first 9 bytes of `filling` for each field and later bytes as they were; or minus document 01's number of the first refusal, with all bytes
// as they were.
#[unsafe(no_mangle)]
pub extern "C" fn tpl_reply(sheet: &[u8], reply: &[u8], filling: &mut [u8]) -> i64
    ensures { HandedOver (replying sheet.now reply.now (length filling.old)) filling.old result filling.new }
{
    c_replies::reply(sheet, reply, filling)
}

// Lists which templates of a book clash, two bytes in `list` for each pair that does, by the first and then by the second. Returns the number of such pairs, with
// later bytes as they were; or minus document 02's number of the first refusal, with all bytes as they were.
#[unsafe(no_mangle)]
pub extern "C" fn tpl_book(book: &[u8], list: &mut [u8]) -> i64
    ensures { Decided (comparing book.now (length list.old)) list.old result list.new }
{
    c_book::book(book, list)
}

// Lists which templates of a book clash and, by an hours file, share a minute, two bytes in `list` for each such pair, by the first and then by the second. Returns
// the number of such pairs, with later bytes as they were; or minus document 02's number of the first refusal, with all bytes as they were.
#[unsafe(no_mangle)]
pub extern "C" fn tpl_book_hours(book: &[u8], hours: &[u8], list: &mut [u8]) -> i64
    ensures { Decided (comparing_hours book.now hours.now (length list.old)) list.old result list.new }
{
    c_hours::book_hours(book, hours, list)
}

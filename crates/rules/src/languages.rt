// The indices that have a string in every language that string 0 lists. Opening has them from one pass, since it knows that the entries ascend.
ghost use Rattle.std.specs.Prelude.{◌≡◌, ◌&&◌, ℕ, ◌<◌, drop};
ghost use Rattle.octets.specs.Sentences.{any};
ghost use Rattle.octets.specs.Table.{has};
ghost use Rattle.sets.specs.Pieces.{pieces_in, pieces_of};
ghost use Rattle.sets.specs.Strings.{words, is_string, in_every};

use octets::table::join;
use sets::contents::entry_at;
use sets::string::is_listed;

// Those in a table that have a string in a language.
fn in_language(set: &[u8], language: u16, table: &[u32; 8]) -> [u32; 8]
    ensures { (j : ℕ) → j < 256 → has result j ≡ (has table.now j && any (is_string j language) (pieces_of 3 (pieces_in set.now))) }
{
    let mut next = [0u32; 8];
    for i in 0..octets::peek(set, 2) {
        let e = entry_at(set, i);
        if is_listed(e, language, table) {
            join(&mut next, e.index);
        }
    }
    next
}

// Those that have one in each language; `languages` is string 0.
pub fn in_every_language(set: &[u8], languages: &[u8]) -> [u32; 8]
    ensures { (j : ℕ) → j < 256 → has result j ≡ in_every (words (drop 2 languages.now)) (pieces_of 3 (pieces_in set.now)) j }
{
    let mut table = [4294967295u32; 8];
    for i in 1..languages.len() / 2 {
        table = in_language(set, octets::word(languages, 2 * i), &table);
    }
    table
}

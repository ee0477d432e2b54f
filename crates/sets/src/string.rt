// The strings of a set. Group 5.
ghost use Rattle.std.specs.Prelude.{◌≡◌, ℕ, ◌<◌, true, ◌&&◌, ◌||◌, drop, get_or, eqb, ltb};
ghost use Rattle.octets.specs.Sentences.{pick, every, member};
ghost use Rattle.sets.specs.Pieces.{piece_with, pieces_in, pieces_of};
ghost use Rattle.sets.specs.Strings.{words, is_string_zero, good_string, language_zero, not_serial, good_languages, languages, good_reference};
ghost use Rattle.octets.specs.Table.{has, with};
ghost use Rattle.sets.specs.Checks.{good_string_piece, good_listed, may_name, no_names, Ordered, Ascend, Reads};

use crate::Entry;
use crate::contents::{body_of, count_of, entry_whole, find_entry};
use crate::device::serial_index;
use descriptors::types::STRING;
use octets::table::{holds, join};

// String 0 lists one to four languages, nonzero and ascending.
fn good_languages(body: &[u8]) -> bool
    ensures { result ≡ good_languages (words (drop 2 body.now)) }
{
    if body.len() < 4 {
        return false;
    }
    if 11 < body.len() {
        return false;
    }
    let mut last: u16 = 0;
    let mut at = 2;
    // Kept: `for i in 1..body.len() / 2` takes 46 bytes more of code on a Cortex-M0, 38 on RISC-V, and 8 of stack more in opening.
    while at + 1 < body.len() {
        let language = octets::word(body, at);
        if language <= last {
            return false;
        }
        last = language;
        at += 2;
    }
    true
}

// Whether string 0 lists a language.
pub fn lists(body: &[u8], language: u16) -> bool
    ensures { result ≡ member language (words (drop 2 body.now)) }
{
    let mut at = 2;
    // Kept: `for i in 1..body.len() / 2` takes 58 bytes more of code on a Cortex-M0, 62 on RISC-V.
    while at + 1 < body.len() {
        if language == octets::word(body, at) {
            return true;
        }
        at += 2;
    }
    false
}

// String 0, which lists the languages; empty where there is none.
pub fn string_zero(set: &[u8]) -> &[u8]
    ensures { words (drop 2 result.now) ≡ languages set.now }
{
    match find_entry(set, STRING, 0, 0) {
        Some(e) => body_of(set, e),
        None => &set[0..0],
    }
}

// Whether a set lists a language.
pub fn language_listed(set: &[u8], language: u16) -> bool
    ensures { result ≡ member language (languages set.now) }
{
    lists(string_zero(set), language)
}

// The first language that a set lists; 0 if it lists none.
pub fn first_language(set: &[u8]) -> u16
    ensures { result ≡ get_or (languages set.now) 0 0 }
{
    let zero = string_zero(set);
    if 3 < zero.len() {
        return octets::word(zero, 2);
    }
    0
}

// Whether an entry is a string in a language and its index in a table; the table is asked last, since few entries come so far.
pub fn is_listed(e: Entry, language: u16, table: &[u32; 8]) -> bool
    ensures { result ≡ (eqb e.kind 3 && eqb e.language language && has table.now e.index) }
{
    if (e.kind == STRING) & (e.language == language) {
        return holds(table, e.index);
    }
    false
}

// A string's body.
fn good_string(body: &[u8]) -> bool
    ensures { result ≡ good_string body.now }
{
    let size = body.len();
    if octets::peek(body, 0) as usize != size {
        return false;
    }
    if octets::peek(body, 1) != STRING {
        return false;
    }
    (size % 2 == 0) & (size <= 254)
}

// A string entry, its body, and whether its language is listed. Each test ends it by itself: one after another they cost less than together.
fn good_string_entry(body: &[u8], e: Entry, listed: bool, serial: u8) -> bool
    ensures { let p = piece_with e body.now in result ≡ (good_string p.body && language_zero p && (is_string_zero p || listed) && not_serial serial p) }
{
    if !good_string(body) {
        return false;
    }
    if e.index == 0 {
        return e.language == 0;
    }
    if e.language == 0 {
        return false;
    }
    if e.index == serial {
        return false;
    }
    listed
}

// Whether string 0 lists a language, where it lists another; most often that is the same.
fn lists_beside(body: &[u8], known: u16, language: u16) -> bool
    requires { member known (words (drop 2 body.now)) ≡ true }
    ensures { result ≡ member language (words (drop 2 body.now)) }
{
    if known == language {
        return true;
    }
    lists(body, language)
}

// Whether an entry is a string in a language after this one, where more are listed.
fn is_later(e: Entry, language: u16, more: bool) -> bool
    ensures { result ≡ (eqb e.kind 3 && ltb language e.language && more) }
{
    (e.kind == STRING) & (language < e.language) & more
}

// What a reference may be: what was seen in the last language that is listed, nothing where more are listed than the entries came to; and the serial number's
// index and 0 besides.
fn close(names: &mut [u32; 8], more: bool, serial: u8)
    ensures { names.new ≡ with (with (pick more no_names names.old) serial) 0 }
{
    if more {
        *names = [0u32; 8];
    }
    join(names, serial);
    join(names, 0);
}

// Where there is no string, a reference may be 0 alone.
pub fn name_none(names: &mut [u32; 8])
    ensures { names.new ≡ with no_names 0 }
{
    *names = [0u32; 8];
    join(names, 0);
}

// The string entries, where string 0 lists good languages: whether they are good, and then what a reference may be. One pass, since the entries ascend by language and
// so do the languages: `table` has the indices that every language before this one has, `names` those of them that were seen in this one.
// Kept: the set goes beside the table that is lent: a struct lends slices by address, 16 bytes of stack at each level.
fn read_listed(set: &[u8], languages: &[u8], serial: u8, names: &mut [u32; 8]) -> bool
    requires { Ascend set.now (words (drop 2 languages.now)) }
    ensures { (result ≡ every (good_string_piece (words (drop 2 languages.now)) serial) (pieces_of 3 (pieces_in set.now))) × (result ≡ true → (j : ℕ) → j < 256 → has names.new j ≡ good_reference (words (drop 2 languages.now)) (pieces_of 3 (pieces_in set.now)) serial j) }
{
    let count = octets::peek(set, 2);
    let mut table = [4294967295u32; 8];
    *names = [0u32; 8];
    let mut at = 2;
    let mut language = octets::word(languages, 2);
    let mut i: u8 = 0;
    // Kept: an entry of a later language is read again once the pass has moved on to the next language, which a `for` cannot do.
    while i < count {
        let e = entry_whole(set, i);
        if is_later(e, language, at + 3 < languages.len()) {
            at += 2;
            language = octets::word(languages, at);
            table = *names;
            *names = [0u32; 8];
            continue;
        }
        i += 1;
        if e.kind == STRING {
            let listed = lists_beside(languages, language, e.language);
            if !good_string_entry(body_of(set, e), e, listed, serial) {
                return false;
            }
            if is_listed(e, language, &table) {
                join(names, e.index);
            }
        }
    }
    close(names, at + 3 < languages.len(), serial);
    true
}

// The string entries: whether they are good, and then what a reference may be; `languages` is string 0, without which there is no string.
fn read_entries(set: &[u8], languages: &[u8], names: &mut [u32; 8]) -> bool
    requires { Ordered set.now }
    ensures { (result ≡ good_listed set.now (words (drop 2 languages.now))) × (result ≡ true → (j : ℕ) → j < 256 → has names.new j ≡ may_name set.now (words (drop 2 languages.now)) j) }
{
    if good_languages(languages) {
        return read_listed(set, languages, serial_index(set), names);
    }
    name_none(names);
    count_of(set, STRING) == 0
}

// The strings of a set: whether they are good, and then what a reference may be, in the table that is lent. It has 0 in any case: a walk may rely on that.
// Kept: that the contents are whole is asked in `requires` and is no struct's invariant, since a struct lends slices by address, 16 bytes of stack at each level.
pub fn read(set: &[u8], languages: &[u8], names: &mut [u32; 8]) -> bool
    requires { Ordered set.now }
    ensures { Reads set.now (words (drop 2 languages.now)) result names.new }
{
    if read_entries(set, languages, names) {
        return true;
    }
    name_none(names);
    false
}

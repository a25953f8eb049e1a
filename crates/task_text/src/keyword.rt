// The keywords of the table: their numbers, places and greatest counts.
ghost use Rattle.std.specs.Prelude.{◌≡◌, ◌<◌};
ghost use Rattle.std.specs.Str.{bytes_eq};
ghost use Rattle.task_text.specs.Gives.{next_count as next_count_lem, rank_or_zero, place_or_zero};
ghost use Rattle.task_text.specs.Reading.{keyword_of as keyword_of_lem};
ghost use Rattle.task_text.specs.Table.{rank as rank_lem, place as place_lem, most as most_lem, name, next_needed as next_needed_lem};

use crate::row::Keyword;

fn rank(key: Keyword) -> u32
    ensures { result ≡ rank_lem key }
{
    match key {
        Keyword::Version => 1,
        Keyword::Order => 2,
        Keyword::Core => 3,
        Keyword::Memory => 4,
        Keyword::Icache => 5,
        Keyword::Dcache => 6,
        Keyword::Point => 7,
        Keyword::Time => 8,
        Keyword::Image => 9,
        Keyword::Words => 10,
        Keyword::Entry => 11,
        Keyword::Stack => 12,
        Keyword::Ram => 13,
        Keyword::Input => 14,
        Keyword::Output => 15,
        Keyword::Show => 16,
        Keyword::Cut => 17,
        Keyword::Loop => 18,
        Keyword::Fact => 19,
    }
}

fn place(key: Keyword) -> u32
    ensures { result ≡ place_lem key }
{
    match key {
        Keyword::Version => 1,
        Keyword::Order => 2,
        Keyword::Core => 3,
        Keyword::Memory => 4,
        Keyword::Icache => 5,
        Keyword::Dcache => 6,
        Keyword::Point => 7,
        Keyword::Time => 8,
        Keyword::Image => 9,
        Keyword::Words => 9,
        Keyword::Entry => 10,
        Keyword::Stack => 11,
        Keyword::Ram => 12,
        Keyword::Input => 13,
        Keyword::Output => 14,
        Keyword::Show => 15,
        Keyword::Cut => 16,
        Keyword::Loop => 17,
        Keyword::Fact => 18,
    }
}

fn most(key: Keyword) -> u32
    ensures { result ≡ most_lem key }
{
    match key {
        Keyword::Version => 1,
        Keyword::Order => 1,
        Keyword::Core => 1,
        Keyword::Memory => 1,
        Keyword::Icache => 1,
        Keyword::Dcache => 1,
        Keyword::Point => 8,
        Keyword::Time => 1,
        Keyword::Image => 1,
        Keyword::Words => 256,
        Keyword::Entry => 1,
        Keyword::Stack => 1,
        Keyword::Ram => 32,
        Keyword::Input => 1,
        Keyword::Output => 1,
        Keyword::Show => 16,
        Keyword::Cut => 31,
        Keyword::Loop => 256,
        Keyword::Fact => 4096,
    }
}

pub(crate) fn name_of(key: Keyword) -> &'static [u8]
    ensures { result.now ≡ name key }
{
    match key {
        Keyword::Version => b"visa-task",
        Keyword::Order => b"order",
        Keyword::Core => b"core",
        Keyword::Memory => b"memory",
        Keyword::Icache => b"icache",
        Keyword::Dcache => b"dcache",
        Keyword::Point => b"point",
        Keyword::Time => b"time",
        Keyword::Image => b"image",
        Keyword::Words => b"words",
        Keyword::Entry => b"entry",
        Keyword::Stack => b"stack",
        Keyword::Ram => b"ram",
        Keyword::Input => b"input",
        Keyword::Output => b"output",
        Keyword::Show => b"show",
        Keyword::Cut => b"cut",
        Keyword::Loop => b"loop",
        Keyword::Fact => b"fact",
    }
}

fn is_named(key: Keyword, field: &[u8]) -> bool
    ensures { result ≡ bytes_eq (name key) field.now }
{
    name_of(key) == field
}

const KEYWORDS: [Keyword; 19] = [
    Keyword::Version,
    Keyword::Order,
    Keyword::Core,
    Keyword::Memory,
    Keyword::Icache,
    Keyword::Dcache,
    Keyword::Point,
    Keyword::Time,
    Keyword::Image,
    Keyword::Words,
    Keyword::Entry,
    Keyword::Stack,
    Keyword::Ram,
    Keyword::Input,
    Keyword::Output,
    Keyword::Show,
    Keyword::Cut,
    Keyword::Loop,
    Keyword::Fact,
];

// The keyword of this name.
#[tactic(auto, unfolding(crate::specs::Reading::keyword_of))]
pub(crate) fn keyword_of(field: &[u8]) -> Option<Keyword>
    ensures { result ≡ keyword_of_lem field.now }
{
    KEYWORDS.iter().copied().find(|key| is_named(*key, field))
}

// The first place after this one where a line is needed, or the end of the table.
#[tactic(auto, unfolding(crate::specs::Table::next_needed))]
fn next_needed(place: u32) -> u32
    requires { place < 100 }
    ensures { result ≡ next_needed_lem place }
{
    if place < 11 {
        place + 1
    } else if place < 13 {
        13
    } else if place < 14 {
        14
    } else {
        19
    }
}

fn rank_of_newest(newest: Option<Keyword>) -> u32
    ensures { result ≡ rank_or_zero newest }
{
    match newest {
        None => 0,
        Some(key) => rank(key),
    }
}

pub(crate) fn place_of_newest(newest: Option<Keyword>) -> u32
    ensures { result ≡ place_or_zero newest }
{
    match newest {
        None => 0,
        Some(key) => place(key),
    }
}

// How often the keyword has stood with this line, if it may stand here.
#[tactic(auto, unfolding(crate::specs::Gives::next_count))]
pub(crate) fn next_count(newest: Option<Keyword>, times: u32, key: Keyword) -> Option<u32>
    ensures { result ≡ next_count_lem newest times key }
{
    if rank_of_newest(newest) == rank(key) {
        if times < most(key) {
            Some(times + 1)
        } else {
            None
        }
    } else {
        let before = place_of_newest(newest);
        if before < place(key) && place(key) <= next_needed(before) {
            Some(1)
        } else {
            None
        }
    }
}

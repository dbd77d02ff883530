//! The names that a boot script has declared so far. They are stored inline, so that a fault is returned even when
//! memory is exhausted.

ghost use Rattle.std.specs.Prelude.{◌≡◌, ◌<◌, ◌≤◌, [], IfOk, IfErr, OnOk, length, true};
ghost use Rattle.std.specs.List.{list_all};
ghost use Rattle.boot_script.specs.BootNames.{same_kind, is_letter, is_name_byte, is_name, name_of, find, number_named};
ghost use Rattle.boot_script.specs.BootNames.{is_declared, new_name, count_of, most_of, room_of, with_name, part_of};
ghost use Rattle.boot_script.specs.BootNames.{tty_part, queue_named};

use crate::fault::ScriptRefusal;
use crate::text::{cut, same_word};
use crate::version::Version;
use arrayvec::ArrayVec;
use boot_data::plan::QueueIndex;
use boot_data::{Kind, Name};
use event_theory::{Element, Gauge};
use std::marker::Model;

/// The number of a tty. Contracts see it as a number.
#[derive(Clone, Copy)]
pub(crate) struct TtyNumber {
    number: u8,
}

/// A declared name, and its number among the names of its kind.
#[derive(Drop)]
pub(crate) struct Named {
    pub(crate) name: Name,
    pub(crate) kind: Kind,
    pub(crate) number: usize,
}

/// All declared names, in the order of the script. Contracts see their list.
#[derive(Drop)]
pub(crate) struct Names {
    names: ArrayVec<Named, 86>,
}

impl Model for Names {
    ghost use Rattle.std.specs.Prelude.{List};
    ghost use Rattle.boot_script.specs.declared.declared_names.Named.{Named};
    ghost use Rattle.boot_script.specs.Counted.{AreCounted};

    ghost Value = { List Named };

    ghost view = { λ names. names.names.items };

    ghost invariant = { λ names. AreCounted names.names.items };
}

impl Model for TtyNumber {
    ghost use Rattle.std.specs.Prelude.{ℕ, ◌<◌};

    ghost Value = { ℕ };

    ghost view = { λ tty. tty.number };

    ghost invariant = { λ tty. tty.number < 2 };

    ghost inverse = { λ n. record { number = n } };
}

impl TtyNumber {
    /// The number.
    pub(crate) fn number(self) -> u8
        ensures value { result ≡ self }
        ensures within { result < 2 }
    {
        self.number
    }
}

impl Default for Named {
    fn default() -> Self {
        Named {
            name: Name::new(),
            kind: Kind::Queue,
            number: 0,
        }
    }
}

/// Whether two kinds are equal.
fn same_kind(one: Kind, other: Kind) -> bool
    ensures { result ≡ same_kind one other }
{
    matches!(
        (one, other),
        (Kind::Queue, Kind::Queue)
            | (Kind::Tty, Kind::Tty)
            | (Kind::Mover, Kind::Mover)
            | (Kind::Gauge, Kind::Gauge)
            | (Kind::Thread, Kind::Thread)
    )
}

/// How many names of this kind a script of a version may declare.
fn most_of(version: Version, kind: Kind) -> usize
    ensures { result ≡ most_of version kind }
{
    match kind {
        Kind::Queue | Kind::Gauge => 8,
        Kind::Tty => 2,
        Kind::Mover => 4,
        Kind::Thread => match version {
            Version::One | Version::Two => 16,
            Version::Three => 64,
        },
    }
}

/// Whether a byte is a letter of a name.
fn is_letter(byte: u8) -> bool
    ensures { result ≡ is_letter byte }
{
    b'a' <= byte && byte <= b'z'
}

/// Whether a byte may occur in a name after its first byte.
fn is_name_byte(byte: u8) -> bool
    ensures { result ≡ is_name_byte byte }
{
    is_letter(byte) || (b'0' <= byte && byte <= b'9')
}

/// Whether each of the bytes may occur in a name after its first byte.
fn are_name_bytes(bytes: &[u8]) -> bool
    ensures { result ≡ list_all is_name_byte bytes.now }
{
    bytes.iter().all(|byte| is_name_byte(*byte))
}

/// Whether a word has the form of a name.
fn has_name_form(word: &[u8]) -> bool
    ensures form { result ≡ is_name word.now }
    ensures few { result ≡ true → length word.now ≤ 8 }
{
    match word {
        [first, rest @ ..] => { is_letter(*first) && are_name_bytes(rest) && rest.len() <= 7 }
        [] => false,
    }
}

/// The name that a word is: 1 to 8 bytes of a to z and 0 to 9, the first a letter. Else BadName.
fn name(word: &[u8]) -> Result<Name, ScriptRefusal>
    ensures result { result ≡ name_of word.now }
    ensures refused { IfErr result (λ refusal. refusal ≡ ScriptRefusal.BadName) }
{
    if has_name_form(word) {
        Ok(Name::of(word))
    } else {
        Err(ScriptRefusal::BadName)
    }
}

impl Names {
    /// No name.
    pub(crate) fn new() -> Self
        ensures { result ≡ [] }
    {
        Names {
            names: ArrayVec::new(),
        }
    }

    /// The number of the thing with this name, if the name was declared for this kind. Else NameUnknown.
    fn find(&self, kind: Kind, name: &[u8]) -> Result<usize, ScriptRefusal>
        ensures result { result ≡ find kind self.now name.now }
        ensures within { IfOk result (λ number. number < most_of Version.Three kind) }
        ensures refused { IfErr result (λ refusal. refusal ≡ ScriptRefusal.NameUnknown) }
    {
        for named in self.names.as_slice() {
            if same_word(name, named.name.as_slice()) {
                return if same_kind(named.kind, kind) {
                    Ok(named.number)
                } else {
                    Err(ScriptRefusal::NameUnknown)
                };
            }
        }
        Err(ScriptRefusal::NameUnknown)
    }

    /// Whether a name was declared, for any kind.
    fn has(&self, name: &[u8]) -> bool
        ensures { result ≡ is_declared self.now name.now }
    {
        for named in self.names.as_slice() {
            if same_word(name, named.name.as_slice()) {
                return true;
            }
        }
        false
    }

    /// The number of the name that the word is, if it was declared for this kind. Else BadName, NameUnknown.
    pub(crate) fn number(&self, kind: Kind, word: &[u8]) -> Result<usize, ScriptRefusal>
        ensures result { result ≡ number_named kind self.now word.now }
        ensures within { IfOk result (λ number. number < most_of Version.Three kind) }
    {
        if !has_name_form(word) {
            return Err(ScriptRefusal::BadName);
        }
        self.find(kind, word)
    }

    /// The element of the thread that the word names. Else BadName, NameUnknown.
    pub(crate) fn thread(&self, word: &[u8]) -> Result<Element, ScriptRefusal>
        ensures result { result ≡ number_named Kind.Thread self.now word.now }
    {
        let number = self.number(Kind::Thread, word)?;
        Element::new(number as u8).ok_or(ScriptRefusal::NameUnknown)
    }

    /// The tty that the word names. Else BadName, NameUnknown.
    pub(crate) fn tty(&self, word: &[u8]) -> Result<TtyNumber, ScriptRefusal>
        ensures result { result ≡ number_named Kind.Tty self.now word.now }
    {
        let number = self.number(Kind::Tty, word)? as u8;
        Ok(TtyNumber { number })
    }

    /// The gauge that the word names. Else BadName, NameUnknown.
    pub(crate) fn gauge(&self, word: &[u8]) -> Result<Gauge, ScriptRefusal>
        ensures result { result ≡ number_named Kind.Gauge self.now word.now }
    {
        let number = self.number(Kind::Gauge, word)?;
        Gauge::new(number as u8).ok_or(ScriptRefusal::NameUnknown)
    }

    /// The name that the word is, if it was not declared before. Else BadName, NameTwice.
    pub(crate) fn new_name(&self, word: &[u8]) -> Result<Name, ScriptRefusal>
        ensures { result ≡ new_name self.now word.now }
    {
        let name = name(word)?;
        if self.has(name.as_slice()) {
            Err(ScriptRefusal::NameTwice)
        } else {
            Ok(name)
        }
    }

    /// How many names of a kind were declared.
    pub(crate) fn count(&self, kind: Kind) -> usize
        ensures count { result ≡ count_of kind self.now }
        ensures few { result ≤ most_of Version.Three kind }
    {
        let mut count = 0;
        for named in self.names.as_slice() {
            if same_kind(named.kind, kind) {
                count += 1;
            }
        }
        count
    }

    /// Adds a name, which gets the next number of its kind. TooMany if the version allows no more names of the kind.
    pub(crate) fn add(
        &mut self,
        version: Version,
        kind: Kind,
        name: &Name,
    ) -> Result<(), ScriptRefusal>
        ensures room { result ≡ (room_of version kind self.old) }
        ensures added { OnOk result (self.new ≡ with_name kind name.now self.old) }
    {
        let number = self.count(kind);
        if number >= most_of(version, kind) {
            return Err(ScriptRefusal::TooMany);
        }
        let name = Name::of(name.as_slice());
        self.names.push(Named { name, kind, number });
        Ok(())
    }

    /// The part of a tty that a word names: its screen queue, or, if a line is heard, its line queue. Else
    /// NameUnknown.
    fn part(tty: usize, heard: bool, part: &[u8]) -> Result<QueueIndex, ScriptRefusal>
        requires { tty < 2 }
        ensures { result ≡ part_of heard tty part.now }
    {
        if part == b"screen".as_slice() {
            return Ok(QueueIndex::Large(tty * 2 + 1));
        }
        if heard && part == b"line".as_slice() {
            return Ok(QueueIndex::Large(tty * 2));
        }
        Err(ScriptRefusal::NameUnknown)
    }

    /// A part of the tty that has this name. Else NameUnknown.
    fn tty_part(&self, heard: bool, name: &[u8], part: &[u8]) -> Result<QueueIndex, ScriptRefusal>
        ensures { result ≡ tty_part heard self.now name.now part.now }
    {
        let tty = self.find(Kind::Tty, name)?;
        Names::part(tty, heard, part)
    }

    /// The queue that a word of a step names. Else BadName, NameUnknown.
    #[tactic(auto, unfolding(crate::specs::BootNames::queue_named))]
    pub(crate) fn queue(&self, heard: bool, word: &[u8]) -> Result<QueueIndex, ScriptRefusal>
        ensures { result ≡ queue_named heard self.now word.now }
    {
        let (first, part) = cut(word, b'.');
        if !has_name_form(first) {
            return Err(ScriptRefusal::BadName);
        }
        match part {
            None => Ok(QueueIndex::Small(self.find(Kind::Queue, first)?)),
            Some(part) => self.tty_part(heard, first, part),
        }
    }
}

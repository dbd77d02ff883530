//! The versions of both scripts. Later versions have more words, names and thread elements.

ghost use Rattle.std.specs.Prelude.{◌≡◌};

/// A kind of script.
#[derive(Clone, Copy)]
pub enum Script {
    /// A list of events, to be replayed.
    Events,
    /// A boot script.
    Boot,
}

/// A version of a script. Its first line names it.
#[derive(Clone, Copy, Debug, PartialEq, Eq)]
pub enum Version {
    /// `events 1`, `synthesis 1`
    One,
    /// `events 2`, `synthesis 2`
    Two,
    /// `events 3`, `synthesis 3`
    Three,
}

impl Version {
    ghost use Rattle.boot_script.specs.Versions.{elements_of, is_later, last_element, last_processor, last_wait};
    ghost use Rattle.boot_script.specs.Versions.{version_line};

    /// The first line of a script of this version.
    pub(crate) fn line(self, script: Script) -> &'static [u8]
        ensures { result.now ≡ version_line script self }
    {
        match script {
            Script::Events => match self {
                Version::One => b"events 1",
                Version::Two => b"events 2",
                Version::Three => b"events 3",
            },
            Script::Boot => match self {
                Version::One => b"synthesis 1",
                Version::Two => b"synthesis 2",
                Version::Three => b"synthesis 3",
            },
        }
    }

    /// How many thread elements the version's core has.
    pub fn elements(self) -> u8
        ensures { result ≡ elements_of self }
    {
        match self {
            Version::One | Version::Two => 16,
            Version::Three => 64,
        }
    }

    /// Whether queues can be shut and wait queues notified in this version, as in each version except the first.
    pub(crate) fn is_later(self) -> bool
        ensures { result ≡ is_later self }
    {
        match self {
            Version::One => false,
            Version::Two | Version::Three => true,
        }
    }

    /// The number of the last element.
    pub(crate) fn last_element(self) -> u8
        ensures { result ≡ last_element self }
    {
        match self {
            Version::One | Version::Two => 15,
            Version::Three => 63,
        }
    }

    /// The number of the last processor.
    pub(crate) fn last_processor(self) -> u8
        ensures { result ≡ last_processor self }
    {
        match self {
            Version::One | Version::Two => 3,
            Version::Three => 7,
        }
    }

    /// The number of the last wait queue.
    pub(crate) fn last_wait(self) -> u8
        ensures { result ≡ last_wait self }
    {
        match self {
            Version::One | Version::Two => 7,
            Version::Three => 15,
        }
    }
}

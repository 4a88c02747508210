// A name: a few bytes that don't change.
ghost use Rattle.std.specs.Prelude.{◌≡◌, ◌<◌, ◌≤◌, ◌+◌, ◌++◌, ◌∷◌, [], IfOk, length};

use crate::errors::NoMemory;
use crate::text::Text;
use std::alloc::Global;
use std::marker::Model;

// The most bytes stored inline: with this limit a name is as small as a list of bytes.
const SHORT: usize = 22;

/// A name, which contracts see as its bytes.
///
/// Short names are stored inline, since most names are short and there are many of them.
#[derive(Drop)]
pub struct Name {
    content: Content,
}

// The bytes of a name. A long name is boxed, so that it is no larger than a short one.
#[derive(Drop)]
enum Content {
    // The number of bytes, and a buffer with the bytes at its front.
    Short(u8, [u8; SHORT]),
    Long(Box<Vec<u8>>),
}

impl Model for Name {
    ghost use Rattle.std.specs.Prelude.{List, ℕ};
    ghost use Rattle.text_core.specs.NameBytes.{content_bytes, IsSound};

    ghost Value = { List ℕ };

    ghost view = { λ n. content_bytes n.content };

    ghost invariant = { λ n. IsSound n.content };
}

impl Name {
    /// Returns the name with exactly these bytes.
    pub fn of(alloc: Global, bytes: &[u8]) -> Result<Name, NoMemory>
        ensures { IfOk result (λ name. name ≡ bytes.now) }
    {
        if bytes.len() <= SHORT {
            Ok(Name::short(bytes))
        } else {
            Name::long(alloc, bytes)
        }
    }

    /// Returns the concatenation of the two pieces as a name.
    pub fn joined(alloc: Global, first: &[u8], second: &[u8]) -> Result<Name, NoMemory>
        ensures { IfOk result (λ name. name ≡ first.now ++ second.now) }
    {
        if first.len() <= SHORT && second.len() <= SHORT - first.len() {
            Ok(Name::short_joined(first, second))
        } else {
            Name::long_joined(alloc, first, &[], second)
        }
    }

    /// Returns the dotted name `path.name`.
    pub fn dotted(alloc: Global, path: &[u8], name: &[u8]) -> Result<Name, NoMemory>
        ensures { IfOk result (λ dotted. dotted ≡ path.now ++ 46 ∷ name.now) }
    {
        if path.len() < SHORT && name.len() < SHORT - path.len() {
            Ok(Name::short_dotted(path, name))
        } else {
            Name::long_joined(alloc, path, b".", name)
        }
    }

    // The concatenation of the two pieces, stored inline.
    fn short_joined(first: &[u8], second: &[u8]) -> Name
        requires { length first.now + length second.now ≤ 22 }
        ensures { result ≡ first.now ++ second.now }
    {
        let mut room = [0u8; SHORT];
        let start = first.len();
        let end = start + second.len();
        room[..start].copy_from_slice(first);
        room[start..end].copy_from_slice(second);
        Name {
            content: Content::Short(end as u8, room),
        }
    }

    // The dotted name, stored inline.
    fn short_dotted(path: &[u8], name: &[u8]) -> Name
        requires { length path.now + length name.now < 22 }
        ensures { result ≡ path.now ++ 46 ∷ name.now }
    {
        // The buffer already has the dot between them.
        let mut room = [b'.'; SHORT];
        let start = path.len() + 1;
        let end = start + name.len();
        room[..path.len()].copy_from_slice(path);
        room[start..end].copy_from_slice(name);
        Name {
            content: Content::Short(end as u8, room),
        }
    }

    // The concatenation of the pieces, built in a separate buffer.
    #[cold]
    #[inline(never)]
    fn long_joined(
        alloc: Global,
        first: &[u8],
        second: &[u8],
        third: &[u8],
    ) -> Result<Name, NoMemory>
        ensures { IfOk result (λ name. name ≡ first.now ++ (second.now ++ third.now)) }
    {
        let mut whole = Text::new(alloc);
        whole.put(first)?;
        whole.put(second)?;
        whole.put(third)?;
        Name::of(alloc, whole.bytes())
    }

    // The empty name.
    pub(crate) fn empty() -> Name
        ensures { result ≡ [] }
    {
        Name {
            content: Content::Short(0, [0u8; SHORT]),
        }
    }

    // The name with these bytes, stored inline.
    fn short(bytes: &[u8]) -> Name
        requires { length bytes.now ≤ 22 }
        ensures { result ≡ bytes.now }
    {
        let mut room = [0u8; SHORT];
        room[..bytes.len()].copy_from_slice(bytes);
        Name {
            content: Content::Short(bytes.len() as u8, room),
        }
    }

    // The name with these bytes, in a box of its own.
    #[cold]
    #[inline(never)]
    fn long(alloc: Global, bytes: &[u8]) -> Result<Name, NoMemory>
        ensures { IfOk result (λ name. name ≡ bytes.now) }
    {
        match Vec::from_slice(alloc, bytes) {
            Ok(own) => match Box::new(alloc, own) {
                Ok(own) => Ok(Name {
                    content: Content::Long(own),
                }),
                Err(_) => Err(NoMemory),
            },
            Err(_) => Err(NoMemory),
        }
    }

    /// Returns a copy of the name.
    pub fn duplicate(&self, alloc: Global) -> Result<Name, NoMemory>
        ensures { IfOk result (λ name. name ≡ self.now) }
    {
        match &self.content {
            Content::Short(length, room) => Ok(Name {
                content: Content::Short(*length, *room),
            }),
            Content::Long(bytes) => Name::long(alloc, bytes.as_slice()),
        }
    }

    /// Returns the name's bytes.
    pub fn bytes(&self) -> &[u8]
        ensures { result.now ≡ self.now }
    {
        match &self.content {
            Content::Short(length, room) => &room[..*length as usize],
            Content::Long(bytes) => bytes.as_slice(),
        }
    }
}

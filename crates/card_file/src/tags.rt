// The tag of a field, which says what the field holds.
ghost use Rattle.std.specs.Prelude.{◌≡◌, ◌≤◌};
ghost use Rattle.scope.specs.CardFile.{length_of_body};
ghost use Rattle.card_file.specs.Tags.{number, TagOf};

#[derive(Clone, Copy, Debug, PartialEq, Eq)]
pub enum Tag {
    Factor = 1,
    Circle = 2,
    Region = 3,
}

impl Tag {
    // The tag with a number. Any other number is unknown.
    pub fn of(number: u64) -> Option<Tag>
        ensures { TagOf number result }
    {
        match number {
            1 => Some(Tag::Factor),
            2 => Some(Tag::Circle),
            3 => Some(Tag::Region),
            _ => None,
        }
    }

    // The byte that stands for it in a file.
    pub fn number(self) -> u8
        ensures { result ≡ number self }
    {
        self as u8
    }

    // How long the body of such a field has to be.
    pub fn body_length(self) -> u64
        ensures { (result ≡ length_of_body (number self)) × (result ≤ 26) }
    {
        match self {
            Tag::Factor => 8,
            Tag::Circle => 26,
            Tag::Region => 16,
        }
    }
}

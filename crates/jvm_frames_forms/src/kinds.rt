//! The tags of frames (JVMS SE 8 §4.7.4).

ghost use Rattle.jvm_maps.specs.Frames.{kind_tag, tagged};
ghost use Rattle.jvm_frames_forms.specs.KindsSeen.{kind_seen, same_kind, IsKind};
ghost use Rattle.std.specs.Prelude.{◌≡◌, option_map, IfSome};

/// The form of a frame and the numbers that its tag tells.
#[derive(Clone, Copy, Debug, PartialEq, Eq)]
pub enum Kind {
    /// The locals of the frame before and an empty stack: the tag is the delta, 0 to 63.
    Same(u8),
    /// The same with one type on the stack: the delta, 0 to 63, is the tag less 64.
    SameOne(u8),
    /// The same with the delta behind the tag.
    SameOneFar,
    /// The locals of the frame before without the last, so many of them, 1 to 3, and an empty stack.
    Chop(u8),
    /// The locals of the frame before and an empty stack, with the delta behind the tag.
    SameFar,
    /// The locals of the frame before with more behind them, so many, 1 to 3, and an empty stack.
    Append(u8),
    /// All types.
    Full,
}

impl Kind {
    /// The tag.
    pub fn tag(self) -> u8
        requires { IsKind self }
        ensures { result ≡ kind_tag (kind_seen self) }
    {
        match self {
            Kind::Same(delta) => delta,
            Kind::SameOne(delta) => 64 + delta,
            Kind::SameOneFar => 247,
            Kind::Chop(count) => 251 - count,
            Kind::SameFar => 251,
            Kind::Append(count) => 251 + count,
            Kind::Full => 255,
        }
    }

    /// The kind of frame that a tag is: `None` exactly where it is none, from 128 to 246.
    #[tactic(auto, unfolding(jvm_maps::specs::Frames::tagged))]
    pub fn of_tag(tag: u8) -> Option<Kind>
        ensures seen { option_map kind_seen result ≡ tagged tag }
        ensures bounded { IfSome result (λ kind. IsKind kind) }
    {
        if tag < 64 {
            Some(Kind::Same(tag))
        } else if tag < 128 {
            Some(Kind::SameOne(tag - 64))
        } else if tag < 247 {
            None
        } else if tag < 248 {
            Some(Kind::SameOneFar)
        } else if tag < 251 {
            Some(Kind::Chop(251 - tag))
        } else if tag < 252 {
            Some(Kind::SameFar)
        } else if tag < 255 {
            Some(Kind::Append(tag - 251))
        } else {
            Some(Kind::Full)
        }
    }

    /// Whether this is the other kind.
    pub fn is(self, other: Kind) -> bool
        ensures { result ≡ same_kind (kind_seen self) (kind_seen other) }
    {
        self == other
    }
}

//! The kinds of contents: the byte, the name and the meaning of each.

ghost use Rattle.std.specs.Prelude.{◌≡◌};
ghost use Rattle.pws_msg.specs.Kinds.{kind_byte, kind_name, kind_with};

/// A kind of contents, one of seventeen, by the table of contents in docs/FORMATS.md.
#[derive(Clone, Copy, Debug, PartialEq, Eq)]
pub enum Kind {
    /// A request of the sender's group. Each replica of a group sends it to the group that is called.
    Request,
    /// A reply to a call, with its body. The responder of the called group sends it to the caller's group, with the vouchers of others.
    Reply,
    /// A replica's part of the bundle of replies that the responder sends. It goes to the replica's own group.
    Part,
    /// A call wasn't answered in time. Each replica says it to its own group.
    Expired,
    /// A reading of the clock, or a share of a seed. Each replica says it to its own group.
    Reading,
    /// An event is proposed for a place. The primary of the view says it.
    PrePrepare,
    /// A vote for a proposal. The backups of the view say it.
    Prepare,
    /// A vote for what is prepared. Each replica says it to its own group.
    Commit,
    /// The state at a place. Each replica says it to its own group.
    Checkpoint,
    /// What a replica reports as it moves to a view. Each replica says it to its own group.
    ViewChange,
    /// A view change was heard. Each replica says it to its own group.
    Ack,
    /// A view is started. Its primary says it.
    NewView,
    /// A view change is passed on, and vouched for. Each replica may say it to its own group.
    Relay,
    /// The event of a place is wanted. Each replica may say it to its own group.
    Fetch,
    /// The event of a place is told. Each replica may say it to its own group.
    Done,
    /// The event that has a digest is wanted. Each replica may say it to its own group.
    Need,
    /// An event is given. Each replica may say it to its own group.
    Give,
}

impl Kind {
    /// Its byte, 1 to 17.
    pub fn byte(self) -> u8
        ensures { result ≡ kind_byte self }
    {
        match self {
            Kind::Request => 1,
            Kind::Reply => 2,
            Kind::Part => 3,
            Kind::Expired => 4,
            Kind::Reading => 5,
            Kind::PrePrepare => 6,
            Kind::Prepare => 7,
            Kind::Commit => 8,
            Kind::Checkpoint => 9,
            Kind::ViewChange => 10,
            Kind::Ack => 11,
            Kind::NewView => 12,
            Kind::Relay => 13,
            Kind::Fetch => 14,
            Kind::Done => 15,
            Kind::Need => 16,
            Kind::Give => 17,
        }
    }

    /// Its name, in upper case.
    pub fn name(self) -> &'static str
        ensures { result.now ≡ kind_name self }
    {
        match self {
            Kind::Request => "REQ",
            Kind::Reply => "REPLY",
            Kind::Part => "PART",
            Kind::Expired => "EXPIRED",
            Kind::Reading => "READING",
            Kind::PrePrepare => "PRE_PREPARE",
            Kind::Prepare => "PREPARE",
            Kind::Commit => "COMMIT",
            Kind::Checkpoint => "CHECKPOINT",
            Kind::ViewChange => "VIEW_CHANGE",
            Kind::Ack => "ACK",
            Kind::NewView => "NEW_VIEW",
            Kind::Relay => "RELAY",
            Kind::Fetch => "FETCH",
            Kind::Done => "DONE",
            Kind::Need => "NEED",
            Kind::Give => "GIVE",
        }
    }

    /// The kind of a byte, or None exactly where no kind has it.
    #[tactic(auto, unfolding(crate::specs::Kinds::kind_with))]
    pub fn with_byte(byte: u8) -> Option<Kind>
        ensures { result ≡ kind_with byte }
    {
        match byte {
            1 => Some(Kind::Request),
            2 => Some(Kind::Reply),
            3 => Some(Kind::Part),
            4 => Some(Kind::Expired),
            5 => Some(Kind::Reading),
            6 => Some(Kind::PrePrepare),
            7 => Some(Kind::Prepare),
            8 => Some(Kind::Commit),
            9 => Some(Kind::Checkpoint),
            10 => Some(Kind::ViewChange),
            11 => Some(Kind::Ack),
            12 => Some(Kind::NewView),
            13 => Some(Kind::Relay),
            14 => Some(Kind::Fetch),
            15 => Some(Kind::Done),
            16 => Some(Kind::Need),
            17 => Some(Kind::Give),
            _ => None,
        }
    }
}

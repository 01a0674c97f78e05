//! `ErrorKind`.
ghost use Rattle.std.specs.Prelude.{◌≡◌};
ghost use Rattle.cool_frame.specs.Frames.{kind_text};

/// Why a message was refused, or a save failed.
#[derive(Clone, Copy, Debug, PartialEq, Eq, Hash)]
pub enum ErrorKind {
    /// The text is no message of the protocol.
    BadMessage,
    /// The link has no document yet.
    NotLoaded,
    /// The link has a document already.
    AlreadyLoaded,
    /// The address names no document of this store.
    BadUrl,
    /// The store answered the load with a fault, which the code tells.
    LoadFailed,
    /// The daemon holds as many documents as it may.
    DocsFull,
    /// The daemon's book has no line left.
    BookFull,
    /// The document's poll has no room for the join.
    MailFull,
    /// The document was closed meanwhile.
    DocGone,
    /// The file is none of the kit's.
    BadFile,
    /// The document has 64 views.
    ViewsFull,
    /// The view may not write.
    ReadOnly,
    /// The document has 524,288 inputs.
    InputsFull,
    /// The view has 64 saves that are not answered.
    SavesFull,
    /// A key, a zoom or a part is none of the document's.
    BadTile,
    /// The view would see too many tiles or pixels.
    TooLarge,
    /// The view would ask for more than 1,024 tiles.
    AskedFull,
    /// The store answered the save with a fault, which the code tells.
    SaveFailed,
}

impl ErrorKind {
    /// The kind as it stands in a frame.
    pub fn text(self) -> &'static str
        ensures { result.now ≡ kind_text self }
    {
        match self {
            ErrorKind::BadMessage => "badmessage",
            ErrorKind::NotLoaded => "notloaded",
            ErrorKind::AlreadyLoaded => "alreadyloaded",
            ErrorKind::BadUrl => "badurl",
            ErrorKind::LoadFailed => "loadfailed",
            ErrorKind::DocsFull => "docsfull",
            ErrorKind::BookFull => "bookfull",
            ErrorKind::MailFull => "mailfull",
            ErrorKind::DocGone => "docgone",
            ErrorKind::BadFile => "badfile",
            ErrorKind::ViewsFull => "viewsfull",
            ErrorKind::ReadOnly => "readonly",
            ErrorKind::InputsFull => "inputsfull",
            ErrorKind::SavesFull => "savesfull",
            ErrorKind::BadTile => "badtile",
            ErrorKind::TooLarge => "toolarge",
            ErrorKind::AskedFull => "askedfull",
            ErrorKind::SaveFailed => "savefailed",
        }
    }
}

// The values of the known headers that were found.
ghost use Rattle.std.specs.Prelude.{◌≡◌, List, [], ◌∷◌, ℕ};
ghost use Rattle.cbf_headers.specs.Found.{field_of, found_of};

use cbf_format::KnownHeader;

// The value of each known header that was found.
#[derive(Clone, Copy)]
pub struct Found {
    pub encoding: Option<u64>,
    pub size: Option<u64>,
    pub elements: Option<u64>,
    pub compression: Option<u64>,
    pub kind: Option<u64>,
    pub order: Option<u64>,
    pub id: Option<u64>,
    pub fastest: Option<u64>,
    pub second: Option<u64>,
    pub third: Option<u64>,
}

impl Found {
    pub fn nothing() -> Found
        ensures { result ≡ found_of [] }
    {
        Found {
            encoding: None,
            size: None,
            elements: None,
            compression: None,
            kind: None,
            order: None,
            id: None,
            fastest: None,
            second: None,
            third: None,
        }
    }

    pub fn get(self, known: KnownHeader) -> Option<u64>
        ensures { result ≡ field_of known self }
    {
        match known {
            KnownHeader::TransferEncoding => self.encoding,
            KnownHeader::Size => self.size,
            KnownHeader::Elements => self.elements,
            KnownHeader::ContentType => self.compression,
            KnownHeader::Kind => self.kind,
            KnownHeader::ByteOrder => self.order,
            KnownHeader::Id => self.id,
            KnownHeader::Fastest => self.fastest,
            KnownHeader::Second => self.second,
            KnownHeader::Third => self.third,
        }
    }

    // With this value of a header, and the others as they were.
    pub fn with(mut self, known: KnownHeader, value: u64) -> Found
        ensures { (fs : List (KnownHeader × ℕ)) → self ≡ found_of fs → result ≡ found_of ((known, value) ∷ fs) }
    {
        match known {
            KnownHeader::TransferEncoding => self.encoding = Some(value),
            KnownHeader::Size => self.size = Some(value),
            KnownHeader::Elements => self.elements = Some(value),
            KnownHeader::ContentType => self.compression = Some(value),
            KnownHeader::Kind => self.kind = Some(value),
            KnownHeader::ByteOrder => self.order = Some(value),
            KnownHeader::Id => self.id = Some(value),
            KnownHeader::Fastest => self.fastest = Some(value),
            KnownHeader::Second => self.second = Some(value),
            KnownHeader::Third => self.third = Some(value),
        }
        self
    }
}

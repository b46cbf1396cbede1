//! Rows that describe items and messages.
ghost use Rattle.std.specs.Prelude.{◌≡◌};
ghost use Rattle.bufr_c.specs.Rows.{head_row, plain_row};

use bufr_frame::Message;

/// The kind of an item whose value is missing.
pub const MISSING: u8 = 0;
/// The kind of an item that is a number. The item's value, in the unit of its element, is the
/// number in the row divided by 10^scale.
pub const NUMBER: u8 = 1;
/// The kind of an item that is a string.
pub const TEXT: u8 = 2;
/// The kind of an item that contains a redefined reference value.
pub const REFERENCE: u8 = 3;
/// The kind of a numeric item whose value does not fit in 64 bits. The number is stored in 16
/// octets, least significant octet first.
pub const WIDE: u8 = 4;

/// A row that describes an item.
#[repr(C)]
#[derive(Clone, Copy, Debug, PartialEq, Eq)]
pub struct ValueRow {
    /// The number or redefined reference value (0 if the value is missing). If the item is a string
    /// or a wide number, this field contains the index of its first octet in the buffer `texts`.
    pub value: i64,
    /// The index of the message's row in the buffer `messages`.
    pub message: u32,
    /// The number of octets that the item occupies in the buffer `texts`.
    pub length: u32,
    /// The number of the subset that contains the item, counted from 1.
    pub subset: u16,
    /// The item's descriptor, in which F occupies the most significant 2 bits, X the next 6 bits,
    /// and Y the remaining 8 bits.
    pub fxy: u16,
    /// The scale of a numeric item.
    pub scale: i16,
    /// The kind of the item ([`MISSING`], [`NUMBER`], [`TEXT`], [`REFERENCE`] or [`WIDE`]).
    pub kind: u8,
    /// Reserved for future versions. The value is always 0.
    pub reserved: u8,
}

/// A row that describes a message or a stray `BUFR` (one that does not start a message).
#[repr(C)]
#[derive(Clone, Copy, Debug, PartialEq, Eq)]
pub struct MessageRow {
    /// The offset of the message or stray `BUFR` in the stream (in octets, counted from 0).
    pub offset: u64,
    /// The length of the message in octets, or 4 for a stray `BUFR`.
    pub length: u64,
    /// The index of the message's first item in the buffer `items`.
    pub first: usize,
    /// The number of rows for the message's items.
    pub items: usize,
    /// The identifier of the originating centre.
    pub centre: u16,
    /// The identifier of the originating sub-centre.
    pub subcentre: u16,
    /// The year, as given in the header (in edition 3, the year of the century).
    pub year: u16,
    /// The number of subsets.
    pub subsets: u16,
    /// The fault number, or 0 if the message was accepted.
    pub fault: u8,
    /// The edition. All header values, including the edition, are 0 for a stray `BUFR` or a message
    /// that cannot be split into its sections.
    pub edition: u8,
    /// The master table number.
    pub master: u8,
    /// The update sequence number.
    pub update: u8,
    /// The data category.
    pub category: u8,
    /// The international data sub-category.
    pub subcategory: u8,
    /// The local data sub-category.
    pub local_subcategory: u8,
    /// The version number of the master table.
    pub master_version: u8,
    /// The version number of the local tables.
    pub local_version: u8,
    /// The month.
    pub month: u8,
    /// The day.
    pub day: u8,
    /// The hour.
    pub hour: u8,
    /// The minute.
    pub minute: u8,
    /// The second.
    pub second: u8,
    /// 1 for observed data, and 0 otherwise.
    pub observed: u8,
    /// 1 for compressed data, and 0 otherwise.
    pub compressed: u8,
    /// Reserved for future versions. The value is always 0.
    pub reserved: u64,
}

impl MessageRow {
    /// Returns the row for a stray `BUFR`, or for a message whose header cannot be read.
    pub(crate) fn plain(offset: u64, length: u64, first: usize, fault: u8) -> MessageRow
        ensures { result ≡ plain_row offset length first fault }
    {
        MessageRow {
            offset,
            length,
            first,
            items: 0,
            centre: 0,
            subcentre: 0,
            year: 0,
            subsets: 0,
            fault,
            edition: 0,
            master: 0,
            update: 0,
            category: 0,
            subcategory: 0,
            local_subcategory: 0,
            master_version: 0,
            local_version: 0,
            month: 0,
            day: 0,
            hour: 0,
            minute: 0,
            second: 0,
            observed: 0,
            compressed: 0,
            reserved: 0,
        }
    }

    /// Returns the row for a message whose header can be read.
    pub(crate) fn of(
        message: &Message<'_>,
        offset: u64,
        first: usize,
        items: usize,
        fault: u8,
    ) -> MessageRow
        ensures { result ≡ head_row message.now offset first items fault }
    {
        let head = message.head();
        MessageRow {
            offset,
            length: message.length(),
            first,
            items,
            centre: head.centre,
            subcentre: head.subcentre,
            year: head.year,
            subsets: message.subsets(),
            fault,
            edition: head.edition,
            master: head.master,
            update: head.update,
            category: head.category,
            subcategory: head.subcategory,
            local_subcategory: head.local_subcategory,
            master_version: head.master_version,
            local_version: head.local_version,
            month: head.month,
            day: head.day,
            hour: head.hour,
            minute: head.minute,
            second: head.second,
            observed: u8::from(message.observed()),
            compressed: u8::from(message.compressed()),
            reserved: 0,
        }
    }
}

/// The caller's buffers for the rows that [`crate::bufr_items`] writes.
#[repr(C)]
#[derive(Drop)]
pub struct RowBuffers<'a> {
    /// The buffer for the rows that describe items.
    pub items: &'a mut [ValueRow],
    /// The buffer for the octets of strings and wide numbers.
    pub texts: &'a mut [u8],
    /// The buffer for the rows that describe messages and stray `BUFR` words.
    pub messages: &'a mut [MessageRow],
    /// Reserved for future versions. The value must be 0.
    pub reserved: [u64; 2],
}

/// The progress of a call to [`crate::bufr_items`], and the numbers of rows and octets that it
/// wrote.
#[repr(C)]
#[derive(Clone, Copy, Debug, PartialEq, Eq)]
pub struct Counts {
    /// The offset in the stream (in octets, counted from 0) at which the call starts. When the call
    /// returns, this field contains the offset at which the next call should start.
    pub at: usize,
    /// The number of rows written to the buffer `items`.
    pub items: usize,
    /// The number of octets written to the buffer `texts`.
    pub octets: usize,
    /// The number of rows written to the buffer `messages`.
    pub messages: usize,
    /// The number of rows required in the buffer `items` for the next message or stray `BUFR` (0
    /// unless the buffers were too small).
    pub items_needed: usize,
    /// The number of octets required in the buffer `texts` for the next message or stray `BUFR` (0
    /// unless the buffers were too small).
    pub octets_needed: usize,
    /// The number of rows required in the buffer `messages` for the next message or stray `BUFR` (1
    /// if the buffers were too small, and 0 otherwise).
    pub messages_needed: usize,
    /// Reserved for future versions. The value is always 0.
    pub reserved: u64,
}

impl Counts {
    /// Returns the initial counts for a call that starts at offset `at`.
    pub(crate) fn at(at: usize) -> Counts
        ensures at { result.at ≡ at }
        ensures items { result.items ≡ 0 }
        ensures octets { result.octets ≡ 0 }
        ensures messages { result.messages ≡ 0 }
        ensures reserved { result.reserved ≡ 0 }
    {
        Counts {
            at,
            items: 0,
            octets: 0,
            messages: 0,
            items_needed: 0,
            octets_needed: 0,
            messages_needed: 0,
            reserved: 0,
        }
    }
}

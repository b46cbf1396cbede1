//! Tables and messages for the tests. The tables are test data, not WMO's tables.

use crate::support::{Runtime, from_hex, joined, ok, words_of};

/// The header line of Table B.
pub(crate) const HEADER_B: &[u8] = b"fxy,name,unit,scale,reference,width\n";

/// The header line of Table D.
pub(crate) const HEADER_D: &[u8] = b"fxy,member\n";

/// Table B for the test messages. Three of the nine elements are delayed replication factors.
const TABLE_B: &[u8] = b"fxy,name,unit,scale,reference,width
001001,WMO BLOCK NUMBER,Numeric,0,0,7
001015,STATION OR SITE NAME,CCITT IA5,0,0,160
005002,LATITUDE (COARSE ACCURACY),degree,2,-9000,15
012101,AIR TEMPERATURE,K,2,0,16
020003,PRESENT WEATHER,Code table,0,0,9
031000,SHORT DELAYED DESCRIPTOR REPLICATION FACTOR,Numeric,0,0,1
031001,DELAYED DESCRIPTOR REPLICATION FACTOR,Numeric,0,0,8
031002,EXTENDED DELAYED DESCRIPTOR REPLICATION FACTOR,Numeric,0,0,16
031021,ASSOCIATED FIELD SIGNIFICANCE,Code table,0,0,6
";

/// Table D for the test messages. The sequences in the table are nested.
///
/// | sequences | members |
/// |---|---|
/// | 3 00 001 to 3 00 017 | the next sequence twice |
/// | 3 10 001 to 3 10 016 | a group with a count of 2 that contains the next sequence twice |
/// | 3 20 001 to 3 20 033 | the next sequence |
/// | 3 30 001 to 3 30 003 | a single operator or replication |
/// | 3 60 192 | two elements |
const TABLE_D: &[u8] = b"\
    fxy,member\n300001,300002\n300001,300002\n300002,300003\n300002,300003\n300003,300004\n\
    300003,300004\n300004,300005\n300004,300005\n300005,300006\n300005,300006\n300006,300007\n\
    300006,300007\n300007,300008\n300007,300008\n300008,300009\n300008,300009\n300009,300010\n\
    300009,300010\n300010,300011\n300010,300011\n300011,300012\n300011,300012\n300012,300013\n\
    300012,300013\n300013,300014\n300013,300014\n300014,300015\n300014,300015\n300015,300016\n\
    300015,300016\n300016,300017\n300016,300017\n300017,001001\n300017,001001\n310001,102002\n\
    310001,310002\n310001,310002\n310002,102002\n310002,310003\n310002,310003\n310003,102002\n\
    310003,310004\n310003,310004\n310004,102002\n310004,310005\n310004,310005\n310005,102002\n\
    310005,310006\n310005,310006\n310006,102002\n310006,310007\n310006,310007\n310007,102002\n\
    310007,310008\n310007,310008\n310008,102002\n310008,310009\n310008,310009\n310009,102002\n\
    310009,310010\n310009,310010\n310010,102002\n310010,310011\n310010,310011\n310011,102002\n\
    310011,310012\n310011,310012\n310012,102002\n310012,310013\n310012,310013\n310013,102002\n\
    310013,310014\n310013,310014\n310014,102002\n310014,310015\n310014,310015\n310015,102002\n\
    310015,310016\n310015,310016\n310016,102002\n310016,001001\n310016,001001\n320001,320002\n\
    320002,320003\n320003,320004\n320004,320005\n320005,320006\n320006,320007\n320007,320008\n\
    320008,320009\n320009,320010\n320010,320011\n320011,320012\n320012,320013\n320013,320014\n\
    320014,320015\n320015,320016\n320016,320017\n320017,320018\n320018,320019\n320019,320020\n\
    320020,320021\n320021,320022\n320022,320023\n320023,320024\n320024,320025\n320025,320026\n\
    320026,320027\n320027,320028\n320028,320029\n320029,320030\n320030,320031\n320031,320032\n\
    320032,320033\n320033,001001\n330001,206012\n330002,101002\n330003,201132\n360192,001001\n\
    360192,012101\n";

/// Returns Table B. Returning the table from a function keeps its text out of the callers' proofs.
pub(crate) fn table_b() -> &'static [u8] {
    TABLE_B
}

pub(crate) fn table_d() -> &'static [u8] {
    TABLE_D
}

/// An edition 4 message that is 48 octets long and contains one block number. Each section is on
/// its own line.
pub(crate) const ONE_BLOCK_NUMBER: &[u8] = b"\
    BUFR\x00\x00\x30\x04\
    \x00\x00\x16\x00\x00\x62\x00\x00\x00\x00\x00\x00\x00\x0E\x00\x07\xE8\x01\x02\x03\x04\x05\
    \x00\x00\x09\x00\x00\x01\x80\x01\x01\
    \x00\x00\x05\x00\x14\
    7777";

/// An edition 4 message that is 56 octets long. The message is `ONE_BLOCK_NUMBER` with a section 2
/// and with octets for local use in section 1.
pub(crate) const LOCAL_USE: &[u8] = b"\
    BUFR\x00\x00\x38\x04\
    \x00\x00\x18\x00\x00\x62\x00\x00\x00\x80\x00\x00\x00\x0E\x00\x07\xE8\x01\x02\x03\x04\x05\
    \xAB\xCD\
    \x00\x00\x06\x00\x01\x02\
    \x00\x00\x09\x00\x00\x01\x80\x01\x01\
    \x00\x00\x05\x00\x14\
    7777";

/// A message that is 50 octets long and contains two compressed temperatures.
pub(crate) const COMPRESSED: &[u8] = b"\
    BUFR\x00\x00\x32\x04\
    \x00\x00\x16\x00\x00\x62\x00\x00\x00\x00\x00\x00\x00\x0E\x00\x07\xE8\x01\x02\x03\x04\x05\
    \x00\x00\x09\x00\x00\x02\xC0\x0C\x65\
    \x00\x00\x07\x00\x70\x8F\x05\
    7777";

/// An edition 3 message that is 46 octets long and contains one block number.
pub(crate) const EDITION_3: &[u8] = b"\
    BUFR\x00\x00\x2E\x03\
    \x00\x00\x12\x00\x00\x62\x00\x00\x00\x00\x0E\x00\x18\x01\x02\x03\x04\x00\
    \x00\x00\x0A\x00\x00\x01\x80\x01\x01\x00\
    \x00\x00\x06\x00\x14\x00\
    7777";

/// An edition 3 message that is 44 octets long. The message is `EDITION_3` without the padding, so
/// sections 3 and 4 have odd lengths.
pub(crate) const EDITION_3_ODD: &[u8] = b"\
    BUFR\x00\x00\x2C\x03\
    \x00\x00\x12\x00\x00\x62\x00\x00\x00\x00\x0E\x00\x18\x01\x02\x03\x04\x00\
    \x00\x00\x09\x00\x00\x01\x80\x01\x01\
    \x00\x00\x05\x00\x14\
    7777";

/// A `BUFR` that declares a length of 64 octets, but does not begin a message.
pub(crate) const STRAY: &[u8] = b"BUFR\x00\x00\x40\x04";

/// Octet 7 of section 3 for observed, uncompressed data.
pub(crate) const PLAIN: u8 = 0x80;

/// Octet 7 of section 3 for observed, compressed data.
pub(crate) const PACKED: u8 = 0xC0;

/// The octets of a message from the edition number up to and including the first octet of section
/// 3.
const SECTION_1: &[u8] = &[
    4, 0, 0, 22, 0, 0, 98, 0, 0, 0, 0, 0, 0, 0, 14, 0, 7, 232, 1, 2, 3, 4, 5, 0,
];

fn length_of(rt: &impl Runtime, length: usize) -> u16 {
    ok(rt, u16::try_from(length))
}

/// Encodes the given descriptors as they appear in section 3.
fn octets_of_words(rt: &impl Runtime, descriptors: &str) -> Vec<u8> {
    let mut octets = Vec::new(rt.alloc());
    for word in &words_of(rt, descriptors) {
        ok(rt, octets.extend_from_slice(&word.to_be_bytes()));
    }
    octets
}

/// Returns an edition 4 message with the given number of subsets, flags, descriptors and data.
pub(crate) fn message_of(
    rt: &impl Runtime,
    subsets: u16,
    flags: u8,
    descriptors: &str,
    payload: &[u8],
) -> Vec<u8> {
    let words = octets_of_words(rt, descriptors);
    let third = length_of(rt, words.len().saturating_add(7));
    let fourth = length_of(rt, payload.len().saturating_add(4));
    let length = third
        .saturating_add(fourth)
        .saturating_add(34)
        .to_be_bytes();
    let (third, fourth) = (third.to_be_bytes(), fourth.to_be_bytes());
    let head = joined(rt, &[b"BUFR\0", &length, SECTION_1, &third, b"\0"]);
    let section_3 = joined(rt, &[&subsets.to_be_bytes(), &[flags], &words, b"\0"]);
    joined(rt, &[&head, &section_3, &fourth, b"\0", payload, b"7777"])
}

/// Returns an edition 4 message whose data are given in hexadecimal digits.
pub(crate) fn message_of_hex(
    rt: &impl Runtime,
    subsets: u16,
    flags: u8,
    descriptors: &str,
    payload: &str,
) -> Vec<u8> {
    let octets = from_hex(rt, payload);
    message_of(rt, subsets, flags, descriptors, &octets)
}

/// The lines before `observed` in the dump of a message built with `message_of`.
pub(crate) const HEAD: &str = "\
    message\nedition 4\nmaster 0\ncentre 98\nsubcentre 0\nupdate 0\ncategory 0\nsubcategory 0\n\
    localsubcategory 0\nmasterversion 14\nlocalversion 0\nyear 2024\nmonth 1\nday 2\nhour 3\n\
    minute 4\nsecond 5\n";

/// Returns the `observed`, `compressed`, `optional` and `subsets` lines of a dump.
fn counts_of(rt: &impl Runtime, subsets: u16, flags: u8) -> String {
    let (observed, compressed) = (flags / 128, flags / 64 % 2);
    let counts = format!(in rt.alloc();
        "observed {observed}\ncompressed {compressed}\noptional 0\nsubsets {subsets}\n"
    );
    ok(rt, counts)
}

/// Appends the lines of a descriptor list, with up to eight descriptors per line.
fn push_descriptors(rt: &impl Runtime, text: &mut String, descriptors: &str) {
    let mut index = 0usize;
    for digits in descriptors.split_whitespace() {
        if index % 8 == 0 {
            ok(rt, text.push_str("descriptors"));
        }
        ok(rt, text.push(' '));
        ok(rt, text.push_str(digits));
        index = index.saturating_add(1);
        if index % 8 == 0 {
            ok(rt, text.push('\n'));
        }
    }
    if index % 8 != 0 {
        ok(rt, text.push('\n'));
    }
}

/// Element descriptors, each with the comment that `dump` adds to items of that element.
#[rattlefmt::skip]
const COMMENTS: &[(&str, &str)] = &[
    ("001001", "  # WMO BLOCK NUMBER [Numeric]"), ("001015", "  # STATION OR SITE NAME [CCITT IA5]"),
    ("005002", "  # LATITUDE (COARSE ACCURACY) [degree]"), ("012101", "  # AIR TEMPERATURE [K]"),
    ("020003", "  # PRESENT WEATHER [Code table]"),
    ("031000", "  # SHORT DELAYED DESCRIPTOR REPLICATION FACTOR [Numeric]"),
    ("031001", "  # DELAYED DESCRIPTOR REPLICATION FACTOR [Numeric]"),
];

fn comment_of(item: &str) -> &'static str {
    for (digits, comment) in COMMENTS {
        if item.starts_with(*digits) {
            return comment;
        }
    }
    ""
}

/// Appends the lines of a subset. A `;` separates the items of a subset.
fn push_subset(rt: &impl Runtime, text: &mut String, subset: u16, items: &str, dumped: bool) {
    let line = ok(rt, format!(in rt.alloc(); "subset {subset}\n"));
    ok(rt, text.push_str(line.as_str()));
    for item in items.split(';') {
        if !item.is_empty() {
            ok(rt, text.push_str(item));
            ok(
                rt,
                text.push_str(if dumped { comment_of(item) } else { "" }),
            );
            ok(rt, text.push('\n'));
        }
    }
}

/// Returns the document for a message built with `message_of`. A `|` separates subsets, and a `;`
/// separates the items of a subset. If `dumped` is set, the items have comments, as in a dump.
fn text_with(
    rt: &impl Runtime,
    subsets: u16,
    flags: u8,
    (descriptors, items): (&str, &str),
    dumped: bool,
) -> String {
    let mut text = ok(rt, String::from_str(rt.alloc(), HEAD));
    let counts = counts_of(rt, subsets, flags);
    ok(rt, text.push_str(counts.as_str()));
    push_descriptors(rt, &mut text, descriptors);
    let mut subset = 0u16;
    for items in items.split('|') {
        subset = subset.saturating_add(1);
        if subset <= subsets {
            push_subset(rt, &mut text, subset, items, dumped);
        }
    }
    ok(rt, text.push_str("end\n"));
    text
}

/// Returns the document for a message with the given items, without comments.
pub(crate) fn text_of(
    rt: &impl Runtime,
    subsets: u16,
    flags: u8,
    descriptors: &str,
    items: &str,
) -> String {
    text_with(rt, subsets, flags, (descriptors, items), false)
}

/// Returns the dump of a message with the given items.
pub(crate) fn dump_of(
    rt: &impl Runtime,
    subsets: u16,
    flags: u8,
    descriptors: &str,
    items: &str,
) -> String {
    text_with(rt, subsets, flags, (descriptors, items), true)
}

/// The line that `ls` prints for `ONE_BLOCK_NUMBER`, without the offset.
const LINE_OF_ONE: &str = "\
    length=48 edition=4 centre=98/0 update=0 category=0/0/0 tables=0/14/0 \
    time=2024-01-02T03:04:05 subsets=1 observed=1 compressed=0 optional=0 descriptors=1\n";

/// Returns the line that `ls` prints for `ONE_BLOCK_NUMBER` at the given offset.
pub(crate) fn line_of_one(rt: &impl Runtime, offset: &str) -> String {
    ok(rt, format!(in rt.alloc(); "offset={offset} {LINE_OF_ONE}"))
}

/// Returns the dump of `ONE_BLOCK_NUMBER`.
pub(crate) fn text_of_one(rt: &impl Runtime) -> String {
    dump_of(rt, 1, PLAIN, "001001", "001001 10")
}

/// Returns a message that is 54 octets long. The data contain two block numbers in a delayed
/// replication.
pub(crate) fn delayed_twice(rt: &impl Runtime) -> Vec<u8> {
    message_of_hex(rt, 1, PLAIN, "101000 031001 001001", "02142C")
}

/// Returns `ONE_BLOCK_NUMBER` with the unsupported edition number 2.
pub(crate) fn of_edition_2(rt: &impl Runtime) -> Vec<u8> {
    let rest = ONE_BLOCK_NUMBER.get(8..).unwrap_or(b"");
    joined(rt, &[b"BUFR\x00\x00\x30\x02", rest])
}

/// Returns the four messages in `bulletins` that should be accepted.
pub(crate) fn messages_of_bulletins(rt: &impl Runtime) -> Vec<u8> {
    let delayed = delayed_twice(rt);
    joined(rt, &[ONE_BLOCK_NUMBER, &delayed, COMPRESSED, LOCAL_USE])
}

/// Returns the octets of `examples/bulletins.bufr`. The stream is 305 octets long, begins with a
/// heading, and contains four accepted messages. A stray `BUFR` follows the second message, an
/// edition 2 message follows the third, and a stray `BUFR` with a short length follows the fourth.
pub(crate) fn bulletins(rt: &impl Runtime) -> Vec<u8> {
    let delayed = delayed_twice(rt);
    let refused = of_edition_2(rt);
    let heading: &[u8] = b"IUSX40 ECMW 020300\r\r\n";
    let between: &[u8] = b"\r\r\nNNNN\n";
    let first = joined(rt, &[heading, ONE_BLOCK_NUMBER, between, &delayed]);
    let stray: &[u8] = b"BUFRjunk";
    let short: &[u8] = b"BUFR\x00\x00\x0B\x04end";
    let second = joined(rt, &[stray, COMPRESSED, &refused, b"\n"]);
    joined(rt, &[&first, &second, LOCAL_USE, short])
}

/// The descriptors of 32 nested groups. The innermost group contains one element.
pub(crate) const THIRTY_TWO_GROUPS: &str = "\
    132001 131001 130001 129001 128001 127001 126001 125001 124001 123001 122001 121001 120001 \
    119001 118001 117001 116001 115001 114001 113001 112001 111001 110001 109001 108001 107001 \
    106001 105001 104001 103001 102001 101001 001001";

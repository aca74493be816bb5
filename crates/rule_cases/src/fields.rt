// A record, and the sources in it: the fields of each kind at their places.
use byteorder::{ByteOrder, LE};
use locomotive_fields::Locomotive;
use std::array;
use store_records::{Aspiration, Bulk, Handling, Standing};
use vehicle_fields::{Coefficients, Distances, Group, Minutes, Neutraliser, POLLUTANTS};

pub(crate) type Record = [u8; 320];

fn bulk(r: &Record) -> Bulk {
    Bulk {
        dust: r[40],
        store: LE::read_u16(&r[42..]),
        material: r[41],
        wind: LE::read_u16(&r[44..]),
        moisture: LE::read_u16(&r[46..]),
        grain: LE::read_u16(&r[48..]),
        openness: r[50],
        amount: LE::read_u32(&r[52..]),
    }
}

pub(crate) fn handling(r: &Record) -> Handling {
    Handling {
        bulk: bulk(r),
        drop: r[51],
    }
}

pub(crate) fn standing(r: &Record) -> Standing {
    Standing {
        bulk: bulk(r),
        k6: LE::read_u16(&r[56..]),
    }
}

pub(crate) fn aspiration(r: &Record) -> Aspiration {
    Aspiration {
        dust: r[40],
        store: LE::read_u16(&r[42..]),
        concentration: LE::read_u32(&r[44..]),
        flow: LE::read_u32(&r[48..]),
        capture: LE::read_u16(&r[52..]),
        hours: LE::read_u16(&r[54..]),
    }
}

pub(crate) fn group(r: &Record) -> Group {
    Group {
        category: r[40],
        fuel: r[41],
        controlled: r[42] == 1,
        heated: r[43] == 1,
        vehicles: LE::read_u16(&r[44..]),
        leaving: LE::read_u16(&r[46..]),
        share: r[48],
        neutraliser: Neutraliser {
            running: r[49],
            warming: r[50],
        },
        idle: Minutes(LE::read_u32(&r[52..])),
        outward: Distances::from(array::from_fn(|i| LE::read_u32(&r[60 + 4 * i..]))),
        inward: Distances::from(array::from_fn(|i| LE::read_u32(&r[68 + 4 * i..]))),
        days: array::from_fn(|month| r[76 + month]),
        timed: Minutes(LE::read_u32(&r[56..])),
    }
}

pub(crate) fn temperatures(r: &Record) -> [i16; 12] {
    array::from_fn(|month| LE::read_i16(&r[88 + 2 * month..]))
}

pub(crate) fn coefficients(r: &Record) -> [Coefficients; POLLUTANTS] {
    array::from_fn(|p| {
        Coefficients::from(array::from_fn(|i| LE::read_u32(&r[112 + 28 * p + 4 * i..])))
    })
}

pub(crate) fn locomotive(r: &Record) -> Locomotive {
    Locomotive {
        model: r[40],
        shares: array::from_fn(|mode| LE::read_u16(&r[44 + 2 * mode..])),
        hours: LE::read_u16(&r[54..]),
        old: r[41],
        zone: r[42],
    }
}

// Where fields stand in label records, by IBM's names, and the identifiers of their formats.

// ---- format 1

pub const DS1FMTID: usize = 44; // behind the name, DS1DSNAM

pub const DS1EXPDT: usize = 56; // expiry date: year less 1900, day

pub const DS1NOEPV: usize = 59; // number of extents

pub const DS1SCALO: usize = 94; // unit, secondary amount

pub const SECONDARY: usize = DS1SCALO + 1;

pub const DS1LSTAR: usize = 98; // last block: TTR

pub const DS1EXT1: usize = 105; // three extents

pub const DS1PTRDS: usize = 135; // link to the format 3

// ---- format 3

pub const DS3EXTNT: usize = 4; // four extents

pub const DS3FMTID: usize = 44;

pub const DS3ADEXT: usize = 45; // nine extents

pub const DS3PTRDS: usize = 135; // no link

// ---- format 4

pub const DS4IDFMT: usize = 44;

pub const DS4HPCHR: usize = 45; // highest format 1: its address

pub const DS4DSREC: usize = 50; // number of format 0s

pub const DS4NOEXT: usize = 59; // number of extents

pub const DS4DEVSZ: usize = 62; // cylinders, tracks in each

pub const HEADS: usize = DS4DEVSZ + 2;

pub const DS4DEVDT: usize = 74; // records a track

pub const DS4VTOCE: usize = 105; // extent of the VTOC

// ---- format 5

pub const DS5AVEXT: usize = 4; // eight entries, with DS5EXTAV

pub const DS5FMTID: usize = 44;

pub const DS5MAVET: usize = 45; // eighteen entries

pub const DS5PTRDS: usize = 135; // link to the next format 5

// ---- identifiers

pub const FORMAT1: u8 = 0xF1;

pub const FORMAT3: u8 = 0xF3;

pub const FORMAT4: u8 = 0xF4;

pub const FORMAT5: u8 = 0xF5;

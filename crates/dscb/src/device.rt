// The geometry of a volume, which a device description tells.

ghost use Rattle.rules.specs.Predicates.{Limits};
ghost use Rattle.rules.specs.Promises.{geometry};

// C cylinders, H tracks in each (heads), D records a track, and the VTOC: V tracks from track S on, within the limits of initialise. A
// volume has at most 65,535 tracks, so 16 bits hold each of them, and every sum and product of tracks that a taken table has.
#[derive(Clone, Copy, Debug, PartialEq, Eq)]
pub struct Geometry {
    pub cylinders: u16,
    pub heads: u16,
    pub records: u16,
    pub vtoc_start: u16,
    pub vtoc_tracks: u16,
    ghost in_limits: { Limits (geometry cylinders heads records vtoc_start vtoc_tracks) },
}

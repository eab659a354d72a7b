// A shot: one line of a trip's table.

// Two stations, a length in millimetres, and two angles in hundredths of a degree. A splay has the second station 0.
#[derive(Clone, Copy, PartialEq, Eq, Debug)]
pub struct Shot {
    pub from: u32,
    pub to: u32,
    pub length: u32,
    pub azimuth: u32,
    pub inclination: i32,
}

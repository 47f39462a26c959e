//! A struct of twelve fields, which are encoded in groups.

mod words;

/// An observation of a weather station: the station, the second, whether someone checked it, remarks; air temperature
/// in tenths of a degree, pressure in tenths of a hectopascal, humidity in percent; rain in hundredths of a millimetre;
/// wind speed in centimetres a second and direction in degrees; cloud cover in eighths, and visibility in metres.
#[derive(Drop, PartialEq)]
pub struct Report {
    pub station: u32,
    pub second: u64,
    pub looked_at: bool,
    pub words: String,
    pub temperature: i16,
    pub pressure: u16,
    pub humidity: u8,
    pub rain: u32,
    pub wind_speed: u16,
    pub wind_direction: u16,
    pub cloud: u8,
    pub sight: u16,
}

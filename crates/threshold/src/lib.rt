// The interrupt thresholds of calls 10 and 11. lib.rs: set_interrupt_thresholds_mm, get_interrupt_thresholds_mm.
#![tactic(auto)]

ghost use Rattle.std.specs.Prelude.{◌≡◌};
ghost use Rattle.threshold.specs.Threshold.{encode_threshold, decode_threshold, check_thresholds};

// The register counts in steps of two millimetres, so its word has a type of its own: neither can be passed for the other.
#[derive(Clone, Copy)]
pub struct Millimeters(pub u16);

#[derive(Clone, Copy)]
pub struct RawThreshold(pub u16);

// What is wrong with thresholds that are refused: answer 6.
#[derive(Clone, Copy, Debug, PartialEq, Eq)]
pub struct InvalidArgument;

// Total: a waiting session may carry any argument, and the mask of the source then drops the bits above the twelfth.
pub fn encode_threshold(mm: Millimeters) -> RawThreshold
    ensures { result ≡ encode_threshold mm }
{
    RawThreshold((mm.0 >> 1) & 0x0FFF)
}

pub fn decode_threshold(raw: RawThreshold) -> Millimeters
    ensures { result ≡ decode_threshold raw }
{
    Millimeters((raw.0 & 0x0FFF) << 1)
}

// The test that call 10 makes before its first transfer.
pub fn check_thresholds(low: Millimeters, high: Millimeters) -> Result<(), InvalidArgument>
    ensures { result ≡ check_thresholds low high }
{
    if low.0 > high.0 || low.0 > 8190 || high.0 > 8190 {
        return Err(InvalidArgument);
    }
    Ok(())
}

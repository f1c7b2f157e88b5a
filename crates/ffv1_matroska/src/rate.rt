//! Frame rates and how long a frame lasts.

ghost use Rattle.std.specs.Prelude.{◌≡◌, ◌<◌, ◌≤◌, ◌+◌, ◌*◌, ◌^◌, IfSome};
ghost use Rattle.ffv1_matroska.specs.Internal.{rate_with};
ghost use Rattle.ffv1_matroska.specs.Rates.{common_up_to, duration_of, frames_in, nearest, rate_of};
ghost use Rattle.ffv1_matroska.specs.Rates.{nearly_in, reduced};

/// A second, in nanoseconds.
const SECOND: u64 = 1_000_000_000;

/// The whole number nearest to a quotient, halves up.
fn nearest(number: u64, divisor: u64) -> u64
    requires { 0 < divisor }
    ensures value { result ≡ nearest number divisor }
{
    let whole = number / divisor;
    let rest = number % divisor;
    if rest >= divisor - rest {
        whole + 1
    } else {
        whole
    }
}

/// The greatest common divisor of two numbers above 0.
fn common(a: u64, b: u64) -> u64
    requires first { 0 < a }
    requires second { 0 < b }
    ensures value { result ≡ common_up_to a b b }
    ensures some { 0 < result }
{
    let mut x = a;
    let mut y = b;
    while y > 0 {
        let rest = x % y;
        x = y;
        y = rest;
    }
    x
}

/// How many frames of this duration fill a period, up to less than a nanosecond a frame.
fn frames_in(period: u64, duration: u64) -> Option<u64>
    requires some { 0 < duration }
    requires short { period < 2 ^ 41 }
    ensures value { result ≡ frames_in period duration }
    ensures most { IfSome result (λ frames. frames ≤ period) }
    ensures fills { IfSome result (λ frames. frames * duration < period + frames) }
{
    let frames = nearest(period, duration);
    let whole = frames * duration;
    if whole < period + frames && period < whole + frames {
        return Some(frames);
    }
    None
}

/// The same, except for frames that fill it exactly.
fn nearly_in(period: u64, duration: u64) -> Option<u64>
    requires some { 0 < duration }
    requires short { period < 2 ^ 41 }
    ensures value { result ≡ nearly_in period duration }
{
    let frames = frames_in(period, duration)?;
    if frames * duration == period {
        return None;
    }
    Some(frames)
}

/// Frames a second in lowest terms, of a frame of so many nanoseconds.
fn reduced(duration: u64) -> (u32, u32)
    requires { 0 < duration }
    ensures { rate_with result ≡ reduced duration }
{
    let divisor = common(SECOND, duration);
    let scale = duration / divisor;
    if scale > 4_294_967_295 {
        return (0, 0);
    }
    ((SECOND / divisor) as u32, scale as u32)
}

/// The frame rate that a frame of so many nanoseconds says (DefaultDuration, RFC 9559,
/// 5.1.4.1.13), as a rate and its scale: frames a second are `rate / scale`.
///
/// It is the first of these that the frames fill up to less than a nanosecond a frame: whole frames
/// a second, thousands of them in 1001 seconds, whole frames in two seconds, whole frames in 100
/// and in 1000 seconds if they do not fill these exactly. Else it is 1000000000 and the duration in
/// lowest terms. Both are 0 if the duration is 0 or the scale would pass 4294967295.
#[tactic(auto, unfolding(crate::specs::Rates::rate_of))]
pub fn rate_of(duration: u64) -> (u32, u32)
    ensures { rate_with result ≡ rate_of duration }
{
    if duration == 0 {
        return (0, 0);
    }
    if let Some(frames) = frames_in(SECOND, duration) {
        return (frames as u32, 1);
    }
    if let Some(frames) = frames_in(1_001_000_000, duration) {
        return ((1000 * frames) as u32, 1001);
    }
    if let Some(frames) = frames_in(2_000_000_000, duration) {
        return (frames as u32, 2);
    }
    if let Some(frames) = nearly_in(100_000_000_000, duration) {
        return (frames as u32, 100);
    }
    if let Some(frames) = nearly_in(1_000_000_000_000, duration) {
        return (frames as u32, 1000);
    }
    reduced(duration)
}

/// How long a frame lasts at a rate and its scale, in nanoseconds, to the nearest, halves up; 0
/// if the rate is 0.
pub fn duration_of(rate: u32, scale: u32) -> u64
    ensures { result ≡ duration_of (rate_with (rate, scale)) }
{
    if rate == 0 {
        return 0;
    }
    nearest(SECOND * u64::from(scale), u64::from(rate))
}

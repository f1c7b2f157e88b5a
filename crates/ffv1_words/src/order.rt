//! What a command line asks for.

ghost use Rattle.std.specs.Prelude.{◌≡◌, ◌&&◌, ◌||◌, is_some, not};
ghost use Rattle.ffv1_words.specs.Order.{has_ending, is_another_name, is_hyphen, is_matroska};
ghost use Rattle.ffv1_words.specs.Order.{is_matroska_name, is_misnamed, lacks_codec_id};
ghost use Rattle.ffv1_words.specs.Order.{lacks_colour, leaves_out, says_colour};

/// Which state transition table `pack` codes with.
#[derive(Clone, Copy, Debug, PartialEq, Eq)]
pub enum CoderChoice {
    /// The standard table.
    Standard,
    /// A table that the configuration record carries, whose deltas are all 0.
    Carried,
}

/// Which container `pack` writes.
#[derive(Clone, Copy, Debug, PartialEq, Eq)]
pub enum ContainerChoice {
    /// Matroska if the name of the output ends in `.mkv`, else AVI.
    Auto,
    /// AVI.
    Avi,
    /// Matroska.
    Matroska,
}

/// What `pack` calls the codec in Matroska.
#[derive(Clone, Copy, Debug, PartialEq, Eq)]
pub enum CodecIdChoice {
    /// `V_FFV1`, as RFC 9043, section 4.3.3 asks.
    Native,
    /// `V_MS/VFW/FOURCC` with a BITMAPINFOHEADER, which other programs play.
    Vfw,
}

/// The range of the samples' values that `pack` says in Matroska.
#[derive(Clone, Copy, Debug, PartialEq, Eq)]
pub enum RangeChoice {
    /// That of the video, if it says one.
    Auto,
    /// Limited range.
    Limited,
    /// Full range.
    Full,
}

/// Where samples of chroma lie, as `pack` says it in Matroska.
#[derive(Clone, Copy, Debug, PartialEq, Eq)]
pub enum SitingChoice {
    /// As the video says it, if it does.
    Auto,
    /// On the left samples, half way between lines.
    Left,
    /// Half way between samples and lines.
    Centre,
    /// On the upper left sample.
    TopLeft,
}

/// What `pack` says of colours in Matroska, above what the video says; the numbers are those of
/// ITU-T H.273, in which 2 says nothing.
#[derive(Clone, Copy, Debug, PartialEq, Eq)]
pub struct ColourChoice {
    /// The range.
    pub range: RangeChoice,
    /// The siting of chroma.
    pub siting: SitingChoice,
    /// ColourPrimaries.
    pub primaries: u8,
    /// TransferCharacteristics.
    pub transfer: u8,
    /// MatrixCoefficients.
    pub matrix: u8,
}

impl ColourChoice {
    /// Whether it says anything: a range, a siting, or a number other than 2.
    fn says_colour(self) -> bool
        ensures { result ≡ says_colour self }
    {
        self.range != RangeChoice::Auto
            || self.siting != SitingChoice::Auto
            || self.primaries != 2
            || self.transfer != 2
            || self.matrix != 2
    }
}

/// How `pack` codes.
#[derive(Clone, Copy, Debug, PartialEq, Eq)]
pub struct Choice {
    /// The state transition table.
    pub coder: CoderChoice,
    /// Whether contexts are of the large quantisation set, and not of the small one.
    pub large: bool,
    /// How many slices stand side by side, from 1 to 32.
    pub columns: u32,
    /// How many slices stand one below another, from 1 to 32.
    pub rows: u32,
    /// Whether the line gives neither of them: the grid of Matroska is then one for the picture's
    /// size, and not that of `columns` and `rows`, which are 1.
    pub default_grid: bool,
    /// Whether each slice carries its parity.
    pub ec: bool,
    /// Frames in `scale` seconds, at least 1: of a picture whose format does not tell.
    pub rate: u32,
    /// In how many seconds there are `rate` frames, at least 1.
    pub scale: u32,
    /// Whether each frame is decoded as soon as it is coded, and compared with its picture.
    pub verify: bool,
    /// What Matroska calls the codec.
    pub codec_id: CodecIdChoice,
    /// Whether the line gives that: such a line is refused if no Matroska is written.
    pub codec_id_given: bool,
    /// Whether the line gives `rate` or `scale`: a video whose format tells its rate keeps that.
    pub rate_given: bool,
    /// What Matroska says of colours: a line that says any is refused if no Matroska is written.
    pub colour: ColourChoice,
}

impl Choice {
    /// Whether the line gives an ID of the codec, and what this container writes to an output of
    /// this name has none.
    pub(crate) fn lacks_codec_id(&self, container: ContainerChoice, output: &str) -> bool
        ensures { result ≡ lacks_codec_id self.now container output.now }
    {
        self.codec_id_given && !container.is_matroska(output)
    }

    /// Whether the line says something of colours, and what this container writes to an output of
    /// this name has no place for it.
    pub(crate) fn lacks_colour(&self, container: ContainerChoice, output: &str) -> bool
        ensures { result ≡ lacks_colour self.now container output.now }
    {
        self.colour.says_colour() && !container.is_matroska(output)
    }
}

/// Frames of a file that come one after the other.
#[derive(Clone, Copy, Debug, PartialEq, Eq)]
pub struct FrameRange {
    /// The number of the first of them. That of the first frame of a file is 0.
    pub first: u32,
    /// How many they are at most, at least 1: all that come, if there is no number.
    pub count: Option<u32>,
}

impl FrameRange {
    /// All frames of a file.
    pub const ALL: FrameRange = FrameRange {
        first: 0,
        count: None,
    };

    /// Whether it may leave out frames of a file: it does not begin with the first, or it has a
    /// number of them.
    pub fn leaves_out(self) -> bool
        ensures { result ≡ leaves_out self }
    {
        self.first != 0 || self.count.is_some()
    }
}

/// What a command line asks for.
#[derive(Clone, Copy, Debug, PartialEq, Eq)]
pub enum Order<'a> {
    /// Codes a video into a file, AVI or Matroska.
    Pack {
        /// The path of the video.
        input: &'a str,
        /// The path of the file.
        output: &'a str,
        /// How it is coded.
        choice: Choice,
        /// What holds its frames.
        container: ContainerChoice,
        /// Whether an output that exists is refused.
        no_clobber: bool,
        /// Whether to say how much of the video is read.
        progress: bool,
    },
    /// Decodes the video of a file, AVI or Matroska.
    Unpack {
        /// The path of the file.
        input: &'a str,
        /// The path of the video.
        output: &'a str,
        /// Whether an output that exists is refused.
        no_clobber: bool,
        /// Whether to say how much of the file is read.
        progress: bool,
        /// The frames that are decoded.
        range: FrameRange,
        /// Whether it goes on after a frame that is refused.
        all: bool,
        /// Whether a note of the file is a fault.
        notes_as_faults: bool,
    },
    /// Decodes the video of each file, and prints what its frames hold.
    Check {
        /// The paths of the files.
        inputs: &'a [&'a str],
        /// Whether it goes on after a frame that is refused.
        all: bool,
        /// Whether to print the place of a fault too.
        place: bool,
        /// Whether to print one line of each file, in place of those of its frames.
        quiet: bool,
        /// Whether to print an object of JSON of each file, on a line, in place of those.
        json: bool,
        /// Whether to say how much of the file is read.
        progress: bool,
        /// The path of a list of MD5s, if the frames of the file are compared with one.
        against: Option<&'a str>,
        /// The frames that are decoded: of one file, if they are not all.
        range: FrameRange,
        /// Whether a note of a file is a fault.
        notes_as_faults: bool,
    },
    /// Prints the configuration of each file.
    Show {
        /// The paths of the files.
        inputs: &'a [&'a str],
        /// Whether to print the cost of its frames too.
        cost: bool,
    },
    /// Prints what each file is: facts of its container, its tracks, its pictures.
    Info {
        /// The paths of the files.
        inputs: &'a [&'a str],
        /// Whether its frames are read, and counted.
        count: bool,
        /// Whether to print an object of JSON of each file, on a line, in place of lines.
        json: bool,
    },
    /// Prints the MD5 of each picture of each file.
    FrameMd5 {
        /// The paths of the files, or of texts of pictures.
        inputs: &'a [&'a str],
        /// The frames that are decoded: of one file, and of no text, if they are not all.
        range: FrameRange,
        /// Whether a note of a file is a fault.
        notes_as_faults: bool,
    },
    /// Codes a mono picture of YUV4MPEG2, and decodes it again.
    Trial {
        /// The path of the picture.
        input: &'a str,
    },
}

/// Whether a path is a hyphen alone, which is standard input as IN, and standard output as OUT. A
/// file of that name is `./-`.
pub fn is_hyphen(path: &str) -> bool
    ensures { result ≡ is_hyphen path.now }
{
    path == "-"
}

/// Whether a name ends so, in letters of either case.
fn has_ending(path: &str, end: &str) -> bool
    ensures { result ≡ has_ending path.now end.now }
{
    let from = path.len().saturating_sub(end.len());
    path.as_bytes()[from..].eq_ignore_ascii_case(end.as_bytes())
}

fn is_matroska_name(path: &str) -> bool
    ensures { result ≡ is_matroska_name path.now }
{
    has_ending(path, ".mkv")
        || has_ending(path, ".mka")
        || has_ending(path, ".mks")
        || has_ending(path, ".mk3d")
}

fn is_another_name(path: &str) -> bool
    ensures { result ≡ is_another_name path.now }
{
    has_ending(path, ".mov")
        || has_ending(path, ".mp4")
        || has_ending(path, ".mxf")
        || has_ending(path, ".y4m")
        || has_ending(path, ".ppm")
}

impl ContainerChoice {
    /// Whether an output of this name is Matroska: if that is chosen, or if neither is and the name
    /// ends in `.mkv`, `.mka`, `.mks` or `.mk3d`, in letters of either case. Standard output, `-`,
    /// is AVI if neither is chosen.
    pub fn is_matroska(self, output: &str) -> bool
        ensures { result ≡ is_matroska self output.now }
    {
        match self {
            ContainerChoice::Auto => is_matroska_name(output),
            ContainerChoice::Avi => false,
            ContainerChoice::Matroska => true,
        }
    }

    /// Whether the name of an output says that it is a file which `pack` does not write: it ends in
    /// `.mov`, `.mp4`, `.mxf`, `.y4m` or `.ppm`, in letters of either case, and no container is
    /// chosen.
    pub(crate) fn is_misnamed(self, output: &str) -> bool
        ensures { result ≡ is_misnamed self output.now }
    {
        match self {
            ContainerChoice::Auto => is_another_name(output),
            ContainerChoice::Avi | ContainerChoice::Matroska => false,
        }
    }
}

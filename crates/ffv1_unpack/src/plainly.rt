//! Whether a file is read plainly.

ghost use Rattle.std.specs.Prelude.{◌≡◌};
ghost use Rattle.ffv1_unpack.specs.Internal.Plainly.{is_plain};

use ffv1_files::Course;

/// Whether by this course plain reading goes on, which the first fault of the file ends.
pub(crate) fn is_plain(course: Course) -> bool
    ensures { result ≡ is_plain course }
{
    match course {
        Course::Plain => true,
        Course::Avi {
            course: _course,
            repeated: _repeated,
        } => false,
        Course::Matroska(_course) => false,
    }
}

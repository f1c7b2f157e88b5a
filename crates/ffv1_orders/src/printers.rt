//! Where lines are printed beside a text: on standard output, or on standard error if the text goes
//! there itself.

ghost use Rattle.std.specs.Prelude.{◌≡◌, false, true};
ghost use Rattle.either.specs.Either.{MatchEither};
ghost use Rattle.ffv1_words.specs.Order.{is_hyphen};

use either::{Either, Left, Right};
use ffv1_words::is_hyphen;
use std::io::{ErrorKind, Printer, Write};
use std::{io, str};

/// What prints on standard error, as a writer of lines in UTF-8.
#[derive(Drop)]
pub struct ErrorPrinter<'a, P> {
    to: &'a P,
}

impl<P: Eprint> Write for ErrorPrinter<'_, P> {
    fn write(&mut self, buf: &[u8]) -> io::Result<usize> {
        match str::from_utf8(buf) {
            Ok(text) => {
                self.to.eprint(text)?;
                Ok(buf.len())
            }
            Err(_) => Err(io::Error::from(ErrorKind::InvalidData)),
        }
    }

    fn flush(&mut self) -> io::Result<()> {
        Ok(())
    }
}

/// What prints lines beside a text.
pub type Beside<'a, P> = Either<Printer<'a, P>, ErrorPrinter<'a, P>>;

/// What prints lines beside a text that goes to this path: on standard error if that is `-`, and
/// else on standard output.
pub fn beside<'a, P: Print + Eprint>(rt: &'a P, output: &str) -> Beside<'a, P>
    ensures side { MatchEither result (λ _. is_hyphen output.now ≡ false)
        (λ _. is_hyphen output.now ≡ true) }
{
    if is_hyphen(output) {
        Right(ErrorPrinter { to: rt })
    } else {
        Left(io::writer(rt))
    }
}

// What is known of a sheet once it was read.
ghost use Rattle.sheets.specs.Accepted.{Accepted};

// A sheet that was accepted: who is given one judges no record again.
#[derive(Clone, Copy)]
pub struct AcceptedSheet<'a> {
    pub bytes: &'a [u8],
    ghost accepted: { Accepted bytes.now },
}

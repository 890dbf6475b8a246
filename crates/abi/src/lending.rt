// Readings put into a buffer that the caller lends: its first bytes are filled, or the reading is refused and no byte changes.
ghost use Rattle.std.specs.Prelude.{◌≡◌};
ghost use Rattle.wire.specs.Numbers.{le, signed};
ghost use Rattle.rules.specs.Verdicts.{numbers};
ghost use Rattle.rules.specs.Requests.{request_read_out};
ghost use Rattle.rules.specs.Readings.{position_figure, net_read_out, exposure_read_out};
ghost use Rattle.abi.specs.Fields.{request_bytes};
ghost use Rattle.abi.specs.Lending.{lent_outcome, lent_bytes, lent_numbers, lent_into, net_bytes, exposure_bytes};

use crate::fields::request_bytes;
use rules::{Position, Refusal, Request};
use units::MilliCents;
use wire::regions::copy_in;
use wire::signed::SignedWord;

// Fills the first bytes of the buffer, or refuses by 10.
fn lend(said: &[u8], buffer: &mut [u8]) -> Result<u16, Refusal>
    ensures answer { result ≡ lent_outcome said.now buffer.old }
    ensures filled { buffer.new ≡ lent_bytes said.now buffer.old }
{
    if buffer.len() < said.len() {
        return Err(Refusal::BufferShort);
    }
    copy_in(buffer, 0, said);
    Ok(0)
}

// A position as a signed word.
fn position_word(p: Position) -> u64
    ensures { le 8 result ≡ signed 8 (position_figure p) }
{
    match p {
        Position::Long(x) => x.0 as u64,
        Position::Short(x) => (x.0 as u64).minus(),
    }
}

// A net position: 8 bytes, signed.
pub fn lend_net(reading: Result<Position, Refusal>, figure: &mut [u8]) -> Result<u16, Refusal>
    ensures answer { numbers result ≡ lent_numbers net_bytes (net_read_out reading) figure.old }
    ensures filled { figure.new ≡ lent_into net_bytes (net_read_out reading) figure.old }
{
    let position = reading?;
    lend(&position_word(position).to_le_bytes(), figure)
}

// An exposure: 8 bytes.
pub fn lend_exposure(
    reading: Result<MilliCents, Refusal>,
    figure: &mut [u8],
) -> Result<u16, Refusal>
    ensures answer { numbers result ≡ lent_numbers exposure_bytes (exposure_read_out reading) figure.old }
    ensures filled { figure.new ≡ lent_into exposure_bytes (exposure_read_out reading) figure.old }
{
    let exposure = reading?;
    lend(&exposure.0.to_le_bytes(), figure)
}

// A request: its fields in 34 bytes.
pub fn lend_request(reading: Result<Request, Refusal>, fields: &mut [u8]) -> Result<u16, Refusal>
    ensures answer { numbers result ≡ lent_numbers request_bytes (request_read_out reading) fields.old }
    ensures filled { fields.new ≡ lent_into request_bytes (request_read_out reading) fields.old }
{
    let request = reading?;
    lend(&request_bytes(request), fields)
}

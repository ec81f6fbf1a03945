// Standard input and files, read into a room of a fixed size.
#![tactic(auto)]

ghost use Rattle.std.specs.Prelude.{take};
ghost use Rattle.input.specs.Reading.{IsPrefixLen};
ghost use Rattle.std.specs.Io.KnownBytes.{Consumes};

use std::io::Read;

// Reads once, and gives how many bytes came. A read that fails gives none, as the end does.
fn read_once<R: Read>(reader: &mut R, room: &mut [u8]) -> usize
    ensures count { IsPrefixLen result room.new }
    ensures bytes { Consumes (R.remaining reader.old) (R.remaining reader.new) (take result room.new) }
{
    reader.read(room).unwrap_or(0)
}

// Reads until the room is full, the input ends or a read fails, and gives how many bytes stand at the room's front.
pub fn read_full<R: Read>(reader: &mut R, room: &mut [u8]) -> usize
    ensures count { IsPrefixLen result room.new }
    ensures bytes { Consumes (R.remaining reader.old) (R.remaining reader.new) (take result room.new) }
{
    let mut done = 0;
    while done < room.len() {
        let read = read_once(reader, &mut room[done..]);
        if read == 0 {
            break;
        }
        done += read;
    }
    done
}

#[cfg(test)]
mod tests {
    use super::read_full;
    use std::io;
    use std::io::Read;

    // Gives a byte at a time, counting down to 0, and then fails.
    #[derive(Drop)]
    struct Failing {
        left: u8,
    }

    impl Read for Failing {
        fn read(&mut self, room: &mut [u8]) -> io::Result<usize> {
            if self.left == 0 {
                return Err(io::Error::from(io::ErrorKind::Other));
            }
            if room.is_empty() {
                return Ok(0);
            }
            self.left -= 1;
            room[0] = self.left;
            Ok(1)
        }
    }

    #[test]
    fn a_read_that_fails_is_the_end(rt: HostRuntime) {
        let mut room = [9u8; 4];
        let count = read_full(&mut Failing { left: 3 }, &mut room);
        assert_eq!(rt; count, 3);
        assert_eq!(rt; room, [2, 1, 0, 9]);
    }

    #[test]
    fn what_is_longer_than_the_room_stays(rt: HostRuntime) {
        let mut room = [9u8; 2];
        let mut reader = Failing { left: 5 };
        let count = read_full(&mut reader, &mut room);
        assert_eq!(rt; count, 2);
        assert_eq!(rt; room, [4, 3]);
        assert_eq!(rt; reader.left, 3);
    }
}

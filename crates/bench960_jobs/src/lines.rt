//! The lines of a script: JSON as clients write it.

use c960_board::{Move, move_bytes};
use itoa::Buffer;
use std::alloc::{AllocError, Global};

/// What stands around the two values of a command.
#[derive(Clone, Copy)]
struct Form {
    front: &'static [u8],
    middle: &'static [u8],
    back: &'static [u8],
}

/// How clients write a move: nearly all as in the first form, others with another order of keys, white space or an escape.
const SUBMIT: [Form; 4] = [
    Form {
        front: b"{\"cmd\":\"submit\",\"board\":\"",
        middle: b"\",\"move\":\"",
        back: b"\"}\n",
    },
    Form {
        front: b"{\"board\":\"",
        middle: b"\",\"move\":\"",
        back: b"\",\"cmd\":\"submit\"}\n",
    },
    Form {
        front: b"{ \"cmd\" : \"submit\" , \"board\" : \"",
        middle: b"\" ,\t\"move\" : \"",
        back: b"\" } \r\n",
    },
    Form {
        front: b"{\"cmd\":\"sub\\u006dit\",\"board\":\"",
        middle: b"\",\"move\":\"",
        back: b"\"}\n",
    },
];

/// How many forms of a move there are.
pub const FORMS: usize = 4;

/// Lines that are refused: no command, or one that nothing here allows.
const REFUSED: [&[u8]; 7] = [
    b"{\"cmd\":\"submit\",\"board\":\"nowhere\",\"move\":\"e2e4\"}\n",
    b"{\"cmd\":\"submit\",\"board\":\"b0\",\"move\":\"a1a1\"}\n",
    b"{\"cmd\":\"take\",\"spectator\":}\n",
    b"[1,2.5,{\"board\":null}]\n",
    b"{\"cmd\":\"pause\",\"board\":\"b0\"}\n",
    b"{\"cmd\":\"open\",\"board\":\"b0\",\"start\":\"518\"}\n",
    b"{\"cmd\":\"take\",\"spectator\":4000000000}\n",
];

/// How many lines are refused, including one that is nearly too long and one that is too long.
pub const REFUSALS: usize = 9;

/// The lines of a script.
#[derive(Drop)]
pub struct Lines {
    text: Vec<u8>,
}

impl Lines {
    pub fn new(alloc: Global) -> Lines {
        Lines {
            text: Vec::new(alloc),
        }
    }

    pub fn as_slice(&self) -> &[u8] {
        self.text.as_slice()
    }

    fn push(&mut self, bytes: &[u8]) -> Result<(), AllocError> {
        self.text.extend_from_slice(bytes)
    }

    fn push_number(&mut self, number: u32) -> Result<(), AllocError> {
        let mut buffer = Buffer::new();
        self.push(buffer.format(number).as_bytes())
    }

    /// The name of a board: a letter and its number.
    fn push_board(&mut self, board: u16) -> Result<(), AllocError> {
        self.push(b"b")?;
        self.push_number(u32::from(board))
    }

    pub fn open(&mut self, board: u16, start: u16) -> Result<(), AllocError> {
        self.push(b"{\"cmd\":\"open\",\"board\":\"")?;
        self.push_board(board)?;
        self.push(b"\",\"start\":")?;
        self.push_number(u32::from(start))?;
        self.push(b"}\n")
    }

    /// A move, in the form with this number.
    pub fn submit(&mut self, form: usize, board: u16, m: Move) -> Result<(), AllocError> {
        let Some(form) = SUBMIT.get(form) else {
            return Ok(());
        };
        self.push(form.front)?;
        self.push_board(board)?;
        self.push(form.middle)?;
        self.push(move_bytes(m).as_slice())?;
        self.push(form.back)
    }

    pub fn agree(&mut self, board: u16) -> Result<(), AllocError> {
        self.push(b"{\"cmd\":\"end\",\"board\":\"")?;
        self.push_board(board)?;
        self.push(b"\",\"how\":\"agreed\"}\n")
    }

    /// A spectator follows a board from a place of its log on, or from now on.
    pub fn follow(
        &mut self,
        spectator: u32,
        board: u16,
        from: Option<u16>,
    ) -> Result<(), AllocError> {
        self.push(b"{\"cmd\":\"follow\",\"board\":\"")?;
        self.push_board(board)?;
        if let Some(place) = from {
            self.push(b"\",\"from\":")?;
            self.push_number(u32::from(place))?;
            self.push(b",\"spectator\":")?;
        } else {
            self.push(b"\",\"spectator\":")?;
        }
        self.push_number(spectator)?;
        self.push(b"}\n")
    }

    pub fn take(&mut self, spectator: u32) -> Result<(), AllocError> {
        self.push(b"{\"cmd\":\"take\",\"spectator\":")?;
        self.push_number(spectator)?;
        self.push(b"}\n")
    }

    pub fn leave(&mut self, spectator: u32) -> Result<(), AllocError> {
        self.push(b"{\"cmd\":\"leave\",\"spectator\":")?;
        self.push_number(spectator)?;
        self.push(b"}\n")
    }

    /// A line with white space of this length.
    fn spaced(&mut self, length: u16) -> Result<(), AllocError> {
        self.push(b"{\"cmd\":")?;
        for _ in 0..length {
            self.push(b" ")?;
        }
        self.push(b"\"leave\",\"spectator\":4000000000}\n")
    }

    /// The refused line with this number.
    pub fn refused(&mut self, number: usize) -> Result<(), AllocError> {
        match REFUSED.get(number) {
            Some(line) => self.push(line),
            None if number == REFUSED.len() => self.spaced(980),
            None => self.spaced(1100),
        }
    }
}

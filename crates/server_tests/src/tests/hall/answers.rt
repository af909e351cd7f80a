//! The texts of answers that are the same each time (docs/PROTOCOL.md).

pub const OPENED: &str = "{\"reply\":\"opened\"}";

pub const AGREED: &str = "{\"outcome\":\"agreed\",\"reply\":\"ended\"}";

pub const BLACK_RESIGNS: &str = "{\"outcome\":\"black resigns\",\"reply\":\"ended\"}";

pub const WHITE_LOSES_ON_TIME: &str = "{\"outcome\":\"white loses on time\",\"reply\":\"ended\"}";

pub const BLACK_LOSES_ON_TIME: &str = "{\"outcome\":\"black loses on time\",\"reply\":\"ended\"}";

pub const WHITE_WINS: &str = "{\"outcome\":\"white wins by decision\",\"reply\":\"ended\"}";

pub const BLACK_WINS: &str = "{\"outcome\":\"black wins by decision\",\"reply\":\"ended\"}";

pub const DRAWN: &str = "{\"outcome\":\"drawn by decision\",\"reply\":\"ended\"}";

pub const THREEFOLD: &str = "{\"outcome\":\"threefold\",\"reply\":\"ended\"}";

pub const NO_SUCH_BOARD: &str = "{\"code\":1,\"name\":\"NoSuchBoard\",\"reply\":\"refused\"}";

pub const BOARD_EXISTS: &str = "{\"code\":2,\"name\":\"BoardExists\",\"reply\":\"refused\"}";

pub const BAD_START: &str = "{\"code\":3,\"name\":\"BadStart\",\"reply\":\"refused\"}";

pub const TOO_MANY_BOARDS: &str = "{\"code\":4,\"name\":\"TooManyBoards\",\"reply\":\"refused\"}";

pub const GAME_OVER: &str = "{\"code\":5,\"name\":\"GameOver\",\"reply\":\"refused\"}";

pub const ILLEGAL: &str = "{\"code\":6,\"name\":\"Illegal\",\"reply\":\"refused\"}";

pub const LOG_FULL: &str = "{\"code\":7,\"name\":\"LogFull\",\"reply\":\"refused\"}";

pub const CLAIM_REFUSED: &str = "{\"code\":8,\"name\":\"ClaimRefused\",\"reply\":\"refused\"}";

pub const TOO_MANY_FOLLOWERS: &str =
    "{\"code\":11,\"name\":\"TooManyFollowers\",\"reply\":\"refused\"}";

pub const NO_MEMORY: &str = "{\"code\":12,\"name\":\"OutOfMemory\",\"reply\":\"refused\"}";

pub const NOT_YOUR_BOARD: &str = "{\"code\":13,\"name\":\"NotYourBoard\",\"reply\":\"refused\"}";

pub const WRONG_MODE: &str = "{\"code\":14,\"name\":\"WrongMode\",\"reply\":\"refused\"}";

pub const TOO_FAR_BACK: &str = "{\"code\":15,\"name\":\"TooFarBack\",\"reply\":\"refused\"}";

pub const NOT_YET: &str = "{\"code\":16,\"name\":\"NotYet\",\"reply\":\"refused\"}";

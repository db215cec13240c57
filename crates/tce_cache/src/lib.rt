//! A cache of tiles: frames among the words of a run, which hold tiles of arrays in files.
//!
//! A [`Cache`] is seen as the list of the tiles that it holds, the one touched last first. A touch brings a tile into
//! a frame, and gives up the tile touched least recently where all frames are in use. A tile that was touched for
//! writing is marked, and is written to its file before its frame is given to another tile, or by a flush. So the
//! current word of a tile, which is the one in its frame or else the one in its file, never changes by a call here.
//!
//! Tiles come from files in pieces of at most 32 KiB and go to them in those of at most 256 KiB, through a buffer outside the
//! words of the run. It and the tables are taken when a cache is made. A flush writes marked tiles that follow one another,
//! in their file and in the frames, as one span. `specs/Cache.antt` has the model, `specs/Touch.antt` says what a touch and a
//! flush do, `specs/Runs.antt` what is done with such tiles, and `specs/Transfer.antt` what is read and written.
//!
//! Which tiles are held is kept by a [`Table`], which knows of no files or devices: what the files have is a function of
//! array, tile and place. `specs/Held.antt` has the list of held tiles, and `specs/Current.antt` says what the current word
//! of a tile is. A tile is found by its bucket, and comes to the front, in a time that does not depend on the number of
//! frames. The order of use and the buckets are linked [`Rings`]. The functions of `frame_laws.rt` do nothing: their
//! contracts are laws of these definitions.
#![tactic(auto)]

mod array;
mod cache;
mod frame_laws;
mod ring;
mod table;
mod transfer;

pub use array::ArrayRef;
pub use cache::Cache;
pub use frame_laws::{
    drops_keep, latest_tiles_stay, loads_keep, puts_are_current, touches_change_the_list,
    touches_keep, write_backs_keep, writes_leave_clean_tiles, writes_stay_in_their_tile,
};
pub use ring::Rings;
pub use table::{Frame, Table};

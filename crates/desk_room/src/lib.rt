// Room that programs read images into and lend to the library.
#![tactic(auto)]

ghost use Rattle.desk_room.specs.Room.{Room};

// One byte more than the longest image that is taken (1 MiB), so that a longer one is seen to be too long and is not cut.
pub fn image() -> [u8; 1048577]
    ensures { Room 1048577 result }
{
    [0; 1048577]
}

// The bytes of the longest master, a G64 of 42 tracks.
pub fn master() -> [u8; 333744]
    ensures { Room 333744 result }
{
    [0; 333744]
}

// The bytes of 26 windows of a capture: more than the rings or the payloads of one side.
pub fn disk() -> [u8; 212992]
    ensures { Room 212992 result }
{
    [0; 212992]
}

// Places, as numbers and back.
ghost use Rattle.std.specs.Prelude.{◌≡◌};
ghost use Rattle.host.specs.Boundary.{due_in, due_out, place_in, place_out};

use crate::{DueState, PlaceState};
use rules::{Due, Place};
use words::{Position, Refusal};

// No refusal that is given out has number 0.
impl From<DueState> for Due {
    ghost from_gives = { λ state due. due ≡ due_in state };

    fn from(state: DueState) -> Due {
        let left = state.left;
        match state.code {
            1 => Due::Header,
            2 => Due::FileHead,
            3 => Due::Segment(left),
            4 => Due::Verification(left),
            5 => Due::Metadata,
            6 => Due::XorbHead,
            7 => Due::Chunk(left, state.sum, state.total),
            9 => Due::Footer,
            10 => Due::End,
            11 if left != 0 => Due::Refused(left),
            _ => Due::Refused(Refusal::STATE),
        }
    }
}

impl From<Due> for DueState {
    ghost from_gives = { λ due state. state ≡ due_out due };

    fn from(due: Due) -> DueState {
        let none = DueState {
            sum: 0,
            total: 0,
            code: 0,
            left: 0,
        };
        match due {
            Due::Header => DueState { code: 1, ..none },
            Due::FileHead => DueState { code: 2, ..none },
            Due::Segment(left) => DueState {
                code: 3,
                left,
                ..none
            },
            Due::Verification(left) => DueState {
                code: 4,
                left,
                ..none
            },
            Due::Metadata => DueState { code: 5, ..none },
            Due::XorbHead => DueState { code: 6, ..none },
            Due::Chunk(left, sum, total) => DueState {
                sum,
                total,
                code: 7,
                left,
            },
            Due::Footer => DueState { code: 9, ..none },
            Due::End => DueState { code: 10, ..none },
            Due::Refused(number) => DueState {
                code: 11,
                left: number,
                ..none
            },
        }
    }
}

impl From<PlaceState> for Place {
    ghost from_gives = { λ state place. place ≡ place_in state };

    fn from(state: PlaceState) -> Place {
        Place {
            at: Position(state.at),
            offset: Position(state.offset),
            totals: state.totals,
            flags: state.flags,
            entries: state.entries,
            footer: state.footer != 0,
            due: Due::from(state.due),
        }
    }
}

// With nothing carried.
impl From<Place> for PlaceState {
    ghost from_gives = { λ place state. state ≡ place_out place 0 };

    fn from(place: Place) -> PlaceState {
        PlaceState {
            at: place.at.0,
            offset: place.offset.0,
            totals: place.totals,
            due: DueState::from(place.due),
            flags: place.flags,
            entries: place.entries,
            footer: u32::from(place.footer),
            have: 0,
        }
    }
}

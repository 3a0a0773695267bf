// What a line orders, judged by its form alone and by the room there is. What is no order is None.
use crate::fields::{bytes_at, count, field, number_at, numbers, parameter_at, signed_at};
use crate::lines::LONGEST;
use crate::questions::{Map, Question};
use crate::registers::{Change, NewColor};
use crate::rooms::ROOM;
use bins::{Setting, Shape};
use frame::Limits;
use payload::Settings;

// The limits and the stride of an opening.
#[derive(Clone, Copy)]
pub(crate) struct Bounds {
    pub(crate) limits: Limits,
    pub(crate) stride: usize,
}

// What is asked of a session.
#[derive(Clone, Copy)]
pub(crate) enum Ask<'a> {
    Payload { bounds: Bounds, settings: Settings },
    Dcs(Bounds),
    Feed { allowance: usize, bytes: &'a [u8] },
    Finish,
    Abort,
}

#[derive(Clone, Copy)]
pub(crate) enum Order<'a> {
    Canvas(usize),
    Lend(usize),
    Session(Ask<'a>),
    OneShot { bounds: Bounds, bytes: &'a [u8] },
    Copy { shape: Shape, length: usize },
    Bench(Question),
    Palette,
    Marks,
    Register(usize),
    Percent(i32),
    Change(Change),
}

// Reads a line, its bytes into `bytes`, for a canvas of `length` bytes. The number of fields leaves few words to ask for.
pub(crate) fn read<'a>(line: &[u8], length: usize, bytes: &'a mut [u8]) -> Option<Order<'a>> {
    if LONGEST < line.len() {
        return None;
    }
    let word = field(line, 0)?;
    match count(line) {
        1 => alone(word),
        2 => two(word, line, length),
        3 => feed(word, line, bytes),
        5 => five(word, line),
        6 => dcs(word, line),
        7 => one_shot(word, line, bytes),
        8 => eight(word, line),
        9 => top(word, line, bytes),
        _ => None,
    }
}

fn alone<'a>(word: &[u8]) -> Option<Order<'a>> {
    match word {
        b"finish" => Some(Order::Session(Ask::Finish)),
        b"abort" => Some(Order::Session(Ask::Abort)),
        b"palette" => Some(Order::Palette),
        b"marks" => Some(Order::Marks),
        b"reset" => Some(Order::Change(Change::Reset)),
        _ => None,
    }
}

// A new canvas has to have room, and what is lent has to be there. A register above 255 is 255's.
fn two<'a>(word: &[u8], line: &[u8], length: usize) -> Option<Order<'a>> {
    match word {
        b"percent" => Some(Order::Percent(signed_at(line, 1)?)),
        b"canvas" => Some(Order::Canvas(up_to(ROOM, number_at(line, 1)?)?)),
        b"lend" => Some(Order::Lend(up_to(length, number_at(line, 1)?)?)),
        b"register" => Some(Order::Register(number_at(line, 1)?)),
        _ => None,
    }
}

fn up_to(most: usize, asked: usize) -> Option<usize> {
    if asked <= most { Some(asked) } else { None }
}

fn feed<'a>(word: &[u8], line: &[u8], bytes: &'a mut [u8]) -> Option<Order<'a>> {
    match word {
        b"feed" => Some(Order::Session(Ask::Feed {
            allowance: number_at(line, 1)?,
            bytes: bytes_at(line, 2, bytes)?,
        })),
        _ => None,
    }
}

fn five<'a>(word: &[u8], line: &[u8]) -> Option<Order<'a>> {
    match word {
        b"copy" => copy(line),
        b"rgb" => Some(Order::Change(Change::Rgb(new_color(line)?))),
        b"hls" => Some(Order::Change(Change::Hls(new_color(line)?))),
        _ => None,
    }
}

fn copy<'a>(line: &[u8]) -> Option<Order<'a>> {
    let [stride, width, height, length] = numbers::<4>(line)?;
    let shape = Shape {
        stride,
        width,
        height,
    };
    Some(Order::Copy {
        shape,
        length: up_to(ROOM, length)?,
    })
}

// N and three signed values, the fields after the word.
fn new_color(line: &[u8]) -> Option<NewColor> {
    Some(NewColor {
        index: number_at(line, 1)?,
        x: signed_at(line, 2)?,
        y: signed_at(line, 3)?,
        z: signed_at(line, 4)?,
    })
}

// W, H, R, M and S, the first five fields after the word.
fn opening(line: &[u8]) -> Option<Bounds> {
    let [width, height, repeats, pixels, stride] = numbers::<5>(line)?;
    let limits = Limits {
        width,
        height,
        repeats,
        pixels,
    };
    Some(Bounds { limits, stride })
}

fn dcs<'a>(word: &[u8], line: &[u8]) -> Option<Order<'a>> {
    match word {
        b"dcs" => Some(Order::Session(Ask::Dcs(opening(line)?))),
        _ => None,
    }
}

fn one_shot<'a>(word: &[u8], line: &[u8], bytes: &'a mut [u8]) -> Option<Order<'a>> {
    match word {
        b"oneshot" => Some(Order::OneShot {
            bounds: opening(line)?,
            bytes: bytes_at(line, 6, bytes)?,
        }),
        _ => None,
    }
}

fn eight<'a>(word: &[u8], line: &[u8]) -> Option<Order<'a>> {
    match word {
        b"payload" => payload(line),
        b"bin" => {
            let (map, column) = band_map(line)?;
            Some(Order::Bench(Question::Bin { map, column }))
        }
        b"columns" => {
            let (map, bin) = band_map(line)?;
            Some(Order::Bench(Question::Columns { map, bin }))
        }
        _ => None,
    }
}

fn payload<'a>(line: &[u8]) -> Option<Order<'a>> {
    let settings = Settings {
        p1: parameter_at(line, 6)?,
        p2: parameter_at(line, 7)?,
    };
    Some(Order::Session(Ask::Payload {
        bounds: opening(line)?,
        settings,
    }))
}

// S, w, h, O, W and N, the first six fields after the word, and the number after them.
fn band_map(line: &[u8]) -> Option<(Map, usize)> {
    let [stride, width, height, origin, columns, count, last] = numbers::<7>(line)?;
    let shape = Shape {
        stride,
        width,
        height,
    };
    let setting = Setting {
        origin,
        width: columns,
        count,
    };
    Some((Map { shape, setting }, last))
}

// A colour has four bytes.
fn top<'a>(word: &[u8], line: &[u8], bytes: &mut [u8]) -> Option<Order<'a>> {
    match word {
        b"top" => {
            let (map, bin) = band_map(line)?;
            let color = *bytes_at(line, 8, bytes)?.as_array()?;
            Some(Order::Bench(Question::Top { map, bin, color }))
        }
        _ => None,
    }
}

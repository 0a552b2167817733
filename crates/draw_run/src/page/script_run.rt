//! The first half of a page's script: the run, read from the data, and the state of host, controller and device behind each step.

/// Reads the data, and computes the state behind a step.
pub const SCRIPT_RUN: &str = "</script>
<script>
'use strict';

// THE RUN: its lines, and its steps, of which each has the lines from its own on

const LINE_FEED = String.fromCharCode(10);
const STEP_WORDS = new Set(['submit', 'task', 'command', 'engine', 'event', 'data', 'status', 'retire', 'take']);

// A line of the trace: its words, and what its bytes say. A line that was written by a step is set in.
function readLine(raw) {
  const end = raw.indexOf('  ; ');
  const line = end < 0 ? raw : raw.slice(0, end);
  const words = line.trim().split(' ');
  return { line: line.trim(), words, name: words[0], said: end < 0 ? '' : raw.slice(end + 4), isWritten: line.startsWith('  ') };
}

// Whether a line begins a step: a step's own, a refusal, or that nothing was due. Other lines with a client's number are replies.
function beginsStep(line) {
  return !line.isWritten && (STEP_WORDS.has(line.name) || line.name === 'idle' || line.words[1] === 'refused');
}

function readRun(data) {
  const raws = data.text.split(LINE_FEED).filter((raw) => raw.trim() !== '');
  const steps = [];
  const stepOfRow = new Int32Array(raws.length);
  raws.forEach((raw, row) => {
    if (steps.length === 0 || (raw[0] !== ' ' && beginsStep(readLine(raw)))) steps.push({ row, rows: 0, client: null, tags: [], of: '' });
    steps[steps.length - 1].rows += 1;
    stepOfRow[row] = steps.length - 1;
  });
  const run = { clients: data.clients, tagsOfClient: data.tags, events: data.events, raws, steps, stepOfRow };
  nameOwners(run);
  return run;
}

function linesOf(run, step) {
  return run.raws.slice(step.row, step.row + step.rows).map(readLine);
}

function clientOfTag(run, tag) {
  return Math.floor((tag - 1) / run.tagsOfClient);
}

// Of whose tags each step is, and of which unit, TRB or event. What a step puts on the command pipe, on the command ring or on the event
// ring is of its own tags, and is taken in the same order.
function nameOwners(run) {
  const pipe = [], engine = [], events = [], tagOfTicket = new Map();
  const none = { tags: [], said: '' };
  let retired = [];
  for (const step of run.steps) {
    const lines = linesOf(run, step), first = lines[0];
    const queue = { command: pipe, engine, event: events }[first.name];
    const taken = (queue && queue.shift()) || none;
    let tags = taken.tags;
    step.of = taken.said;
    if (first.name === 'submit') tags = [Number(first.words[2])];
    if (first.name === 'task') tags = tagsSaid(lines);
    if (first.name === 'data' || first.name === 'status') tags = [Number(first.words[1])];
    if (first.name === 'retire') tags = retired = [Number(first.words[2])];
    const ticket = first.name === 'submit' ? first.words[3] : first.words[2];
    if (first.name === 'submit' || first.name === 'task') tagOfTicket.set(first.words[1] + ' ' + ticket, tags);
    if (first.name === 'take') for (const line of lines.slice(1)) tags = tagOfTicket.get(line.words[0] + ' ' + line.words[1]) || tags;
    for (const line of lines) {
      const ring = line.name === 'put' ? placeAt(line).ring : null;
      if (ring === 'command pipe ring') pipe.push({ tags, said: lines.find((unit) => unit.name === 'unit').said });
      if (ring === 'command ring') engine.push({ tags: retired, said: line.said });
      if (line.isWritten && line.name === 'event') events.push({ tags, said: line.said });
    }
    step.tags = tags;
    step.client = ownClient(run, first, tags);
  }
}

function ownClient(run, first, tags) {
  if (['submit', 'task', 'take'].includes(first.name)) return Number(first.words[1]);
  if (first.words[1] === 'refused') return Number(first.words[0]);
  return tags.length > 0 ? clientOfTag(run, tags[0]) : null;
}

// the tags of a task management's unit: its own, and the one that it is for
function tagsSaid(lines) {
  const unit = lines.find((line) => line.name === 'unit');
  return unit ? Array.from(unit.said.matchAll(/tag ([0-9]+)/g), (match) => Number(match[1])).slice(0, unit.said.includes(' task-tag 0 ') ? 1 : 2) : [];
}

// WHAT A LINE SAYS OF A RING

const PLACE_AT = / at ([a-z -]*ring(?: of stream [0-9]+)?), place ([0-9]+)$/;
const PLACE_POINTED = /[(]([a-z -]*ring(?: of stream [0-9]+)?), place ([0-9]+)[)]/;

function placeBy(form, line) {
  const match = form.exec(line.said);
  return match && { ring: match[1], place: Number(match[2]) };
}

// the ring and the place where a line's bytes stand, and those that its pointer names
function placeAt(line) { return placeBy(PLACE_AT, line); }
function placePointed(line) { return placeBy(PLACE_POINTED, line); }

function cycleOf(line) {
  return line.said.includes(' cycle 1') ? 1 : 0;
}

// The addresses that a line has: what its bytes or its chunk cover, and what its pointer covers, each from an address up to another.
function spansOf(line) {
  const spans = [];
  if (line.isWritten && line.words.length === 3 && line.words[1].length === 16) {
    const from = parseInt(line.words[1], 16);
    const isChunk = line.name === 'in' || line.name === 'out';
    spans.push([from, from + (isChunk ? Number(line.words[2]) : line.words[2].length / 2)]);
  }
  const pointer = / pointer ([0-9a-f]{16})(?: length ([0-9]+))?/.exec(line.said);
  if (pointer) spans.push([parseInt(pointer[1], 16), parseInt(pointer[1], 16) + Math.max(1, Number(pointer[2] || 1))]);
  return spans;
}

function hasAddress(line, address) {
  return spansOf(line).some(([from, to]) => from <= address && address < to);
}

// THE STATE BEHIND A STEP

// Rings by name, events that wait, tasks of the device by tag, units in command buffers, replies, the pipe that is held, and what the
// last step took off rings.
function firstState() {
  return { rings: new Map(), events: [], tasks: new Map(), units: new Map(), replies: [], held: null, taken: [] };
}

// A ring as it is opened: producer and consumer at place 0, with cycle 1.
function ringOf(state, name) {
  if (!state.rings.has(name)) {
    state.rings.set(name, { name, base: null, places: new Map(), producer: { place: 0, cycle: 1 }, consumer: { place: 0, cycle: 1 }, isMoved: false });
  }
  return state.rings.get(name);
}

function putOn(run, state, line) {
  const at = placeAt(line), ring = ringOf(state, at.ring), cycle = cycleOf(line);
  ring.base = parseInt(line.words[1], 16) - 16 * at.place;
  ring.places.set(at.place, { name: line.name, bytes: line.words[2], said: line.said, cycle });
  const isLast = line.name === 'link' || (line.name === 'event' && at.place === run.events - 1);
  ring.producer = isLast ? { place: 0, cycle: 1 - cycle } : { place: at.place + 1, cycle };
}

// The consumer takes a TRB, and passes a Link behind it.
function takeFrom(run, state, name) {
  const ring = ringOf(state, name), trb = ring.places.get(ring.consumer.place);
  state.taken.push({ ring: name, place: ring.consumer.place, said: trb ? trb.said : '' });
  const next = ring.consumer.place + 1, behind = ring.places.get(next);
  const isLast = (behind && behind.name === 'link') || (name === 'event ring' && next === run.events);
  ring.consumer = isLast ? { place: 0, cycle: 1 - ring.consumer.cycle } : { place: next, cycle: ring.consumer.cycle };
}

// The device receives the unit that a TRB of the command pipe names: a command is a task of its own, and a task management ends those that it is for.
function receive(state, tags) {
  const unit = tags.length > 0 && state.units.get(tags[0]);
  if (!unit) return;
  const lun = / lun ([0-9a-f]+)/.exec(unit), other = / task-tag ([0-9]+)/.exec(unit);
  const isOf = (task) => task.isCommand && task.lun === lun[1];
  for (const [tag, task] of Array.from(state.tasks)) {
    if (unit.includes(' LOGICAL UNIT RESET') && isOf(task)) state.tasks.delete(tag);
    if (unit.includes(' ABORT TASK') && isOf(task) && tag === Number(other[1])) state.tasks.delete(tag);
  }
  state.tasks.set(tags[0], { said: unit, lun: lun && lun[1], isCommand: unit.startsWith('Command'), moved: 0, isEnded: false });
}

// A step of a tag's data: a chunk that moves takes a TRB; one that meets a bad block moves nothing and ends the command.
function moveData(run, state, lines) {
  const tag = Number(lines[0].words[1]), task = state.tasks.get(tag);
  const chunk = lines.find((line) => line.name === 'in' || line.name === 'out');
  if (chunk) takeFrom(run, state, 'data-' + chunk.name + ' ring of stream ' + tag);
  if (chunk && task) task.moved += Number(chunk.words[2]);
  if (!chunk && task) task.isEnded = true;
}

function setContext(state, line) {
  const at = placePointed(line);
  if (!at) return;
  const ring = ringOf(state, at.ring);
  ring.consumer = { place: at.place, cycle: line.said.endsWith(' dcs 1') ? 1 : 0 };
  ring.isMoved = true;
}

function take(run, state, step, lines) {
  const first = lines[0];
  if (first.name === 'command') { takeFrom(run, state, 'command pipe ring'); receive(state, step.tags); }
  if (first.name === 'engine') takeFrom(run, state, 'command ring');
  if (first.name === 'data') moveData(run, state, lines);
  if (first.name === 'status') { takeFrom(run, state, 'status ring of stream ' + first.words[1]); state.tasks.delete(Number(first.words[1])); }
  if (first.name === 'retire') state.held = { pipe: Number(first.words[1]), tag: Number(first.words[2]) };
  if (first.name === 'event') {
    takeFrom(run, state, 'event ring');
    const heard = state.events.shift();
    if (heard && heard.releases) state.held = null;
  }
}

// The state behind a step, of the state before it.
function advance(run, state, index) {
  const step = run.steps[index], lines = linesOf(run, step);
  state.taken = [];
  take(run, state, step, lines);
  const releases = lines.some((line) => line.name === 'context');
  for (const line of lines) {
    if (line.isWritten && ['put', 'link', 'event'].includes(line.name)) putOn(run, state, line);
    if (line.isWritten && line.name === 'event') state.events.push({ said: line.said, step: index, tags: step.tags, releases });
    if (line.name === 'unit' && line.said.includes(' at command buffer of ')) state.units.set(step.tags[0], line.said);
    if (line.name === 'context') setContext(state, line);
    if (/^[0-9]+$/.test(line.name)) state.replies.push({ line: line.line, step: index });
  }
  return state;
}

// States behind steps that were looked at, one in 256 of them kept.
const KEPT_EACH = 256;

function makeStates(run) {
  const kept = [firstState()];
  let last = { index: -1, state: firstState() };
  return function stateBehind(index) {
    const nearest = Math.min(Math.floor((index + 1) / KEPT_EACH), kept.length - 1);
    if (last.index > index || last.index < nearest * KEPT_EACH - 1) last = { index: nearest * KEPT_EACH - 1, state: structuredClone(kept[nearest]) };
    while (last.index < index) {
      last.index += 1;
      advance(run, last.state, last.index);
      if ((last.index + 1) % KEPT_EACH === 0 && kept.length === (last.index + 1) / KEPT_EACH) kept.push(structuredClone(last.state));
    }
    return last.state;
  };
}
";

//! The second half of a page's script: the picture, the panel beside it, and what keys and clicks do.

/// Draws what is looked at, and nothing else.
pub const SCRIPT_VIEW: &str = "
// WHAT IS LOOKED AT

const run = readRun(JSON.parse(document.getElementById('run').textContent));
const stateBehind = makeStates(run);
const view = { step: 0, client: '', tag: '', address: null, rows: [], steps: [], places: new Map(), gap: 0, width: 0 };
const part = (id) => document.getElementById(id);

function isShown(step) {
  return (view.client === '' || step.client === Number(view.client)) && (view.tag === '' || step.tags.includes(Number(view.tag)));
}

// The steps that the filters leave, the rows of their lines, and the place of each row.
function applyFilters() {
  view.steps = [];
  view.rows = [];
  view.places = new Map();
  run.steps.forEach((step, index) => {
    if (!isShown(step)) return;
    view.places.set(index, view.rows.length);
    view.steps.push(index);
    for (let k = 0; k < step.rows; k += 1) view.rows.push(step.row + k);
  });
}

// THE PICTURE

const PITCH = 22, NARROW = 64;
const SYSTEM = ['host', 'rings', 'controller', 'device'];
const WRITTEN_ENDS = { put: ['host', 'rings'], link: ['host', 'rings'], bell: ['host', 'controller'], in: ['device', 'rings'], out: ['rings', 'device'],
  event: ['controller', 'host'], context: ['controller', 'rings'] };
const WRITTEN_KINDS = { put: 'trb', link: 'trb', bell: 'doorbell', unit: 'unit', in: 'data', out: 'data', event: 'event', context: 'context' };
const LEGEND = { command: 'command of a client', reply: 'reply', trb: 'TRB', doorbell: 'doorbell', unit: 'information unit', data: 'data', event: 'event',
  context: 'stream context', turn: 'step', refused: 'refused' };

function lanesShown() {
  return Array.from({ length: run.clients }, (_, client) => client).concat(SYSTEM);
}

// The lanes take at most half of the picture; the words of a row stand behind them.
function spread() {
  const count = run.clients + SYSTEM.length;
  view.gap = Math.max(13, Math.min(90, Math.floor(part('picture').clientWidth * 0.5 / count)));
  view.width = view.gap * count;
}

function laneX(lane) {
  const place = typeof lane === 'number' ? lane : run.clients + SYSTEM.indexOf(lane);
  return Math.round(view.gap * (place + 0.5));
}

// The lanes between which a line's arrow goes, or the one lane that its dot is on.
function endsOf(line) {
  if (line.isWritten && line.name === 'unit') return /^0[15]/.test(line.words[line.words.length - 1]) ? ['host', 'device'] : ['device', 'host'];
  if (line.isWritten) return WRITTEN_ENDS[line.name];
  if (line.name === 'submit' || line.name === 'task') return [Number(line.words[1]), 'host'];
  if (line.words[1] === 'refused') return [Number(line.words[0])];
  if (/^[0-9]+$/.test(line.name)) return ['host', Number(line.name)];
  if (['take', 'retire', 'event'].includes(line.name)) return ['host'];
  return STEP_WORDS.has(line.name) ? ['controller'] : [];
}

function kindOf(line) {
  if (line.isWritten) return WRITTEN_KINDS[line.name];
  if (line.words[1] === 'refused') return 'refused';
  if (line.name === 'submit' || line.name === 'task') return 'command';
  return /^[0-9]+$/.test(line.name) ? 'reply' : 'turn';
}

function markUp(text) {
  return text.replaceAll('&', '&amp;').replaceAll('<', '&lt;').replaceAll('>', '&gt;').replaceAll(`'`, '&#39;');
}

function arrow(from, to, y) {
  const head = Math.min(8, Math.abs(to - from) / 2);
  return `<path d='M${from} ${y}H${to}${from < to ? `l-${head}-4v8l${head}-4z` : `l${head}-4v8l-${head}-4z`}'/>`;
}

// A line in the picture: its words, with what its bytes say in their place, or what the step takes.
function rowText(line, of) {
  const said = line.said === '' ? of : line.said;
  return markUp(said === '' ? line.line : line.name + '  ' + said);
}

function shapeOf(line, step) {
  const ends = endsOf(line), xs = ends.map(laneX), y = PITCH / 2;
  const own = step.client !== null && !ends.includes(step.client) ? `<circle r='2.5' cx='${laneX(step.client)}' cy='${y}'/>` : '';
  const shape = xs.length === 2 ? arrow(xs[0], xs[1], y) : xs.length === 1 ? `<circle r='4' cx='${xs[0]}' cy='${y}'/>` : '';
  return `<g class='${kindOf(line)}'>${own}${shape}</g>`;
}

function rowDrawn(place, rails) {
  const row = view.rows[place], index = run.stepOfRow[row], step = run.steps[index], line = readLine(run.raws[row]);
  const isFirst = row === step.row, isHere = index === view.step, text = rowText(line, isFirst ? step.of : '');
  const classes = ['row'].concat(isFirst ? ['step'] : [], isHere ? ['here'] : []).join(' ');
  const place_of = `aria-setsize='${view.rows.length}' aria-posinset='${place + 1}' aria-selected='${isHere}' tabindex='${isFirst && isHere ? 0 : -1}'`;
  return `<div class='${classes}' role='option' ${place_of} data-step='${index}' style='top:${PITCH * place}px;height:${PITCH}px' title='${text}'>`
    + `<svg width='${view.width}' height='${PITCH}' aria-hidden='true'>${rails}${shapeOf(line, step)}</svg><span class='${kindOf(line)}'>${text}</span></div>`;
}

// Only the rows that are in sight are in the page.
function drawRows() {
  const box = part('picture'), hadFocus = part('rows').contains(document.activeElement);
  const first = Math.max(0, Math.floor(box.scrollTop / PITCH) - 5);
  const last = Math.min(view.rows.length, first + Math.ceil(box.clientHeight / PITCH) + 10);
  const rails = lanesShown().map((lane) => `<path class='rail' d='M${laneX(lane)} 0V${PITCH}'/>`).join('');
  const drawn = [];
  for (let place = first; place < last; place += 1) drawn.push(rowDrawn(place, rails));
  part('rows').innerHTML = view.rows.length > 0 ? drawn.join('') : `<p class='nothing'>${markUp(nothingSaid())}</p>`;
  if (hadFocus) (part('rows').querySelector(`.row[tabindex='0']`) || part('panel')).focus({ preventScroll: true });
}

// What a filter says that leaves no step.
function nothingSaid() {
  const of = (view.client === '' ? [] : ['client ' + view.client]).concat(view.tag === '' ? [] : ['tag ' + view.tag]);
  return `No step is of ${of.join(' and of ')}. Escape shows all steps.`;
}

function drawFrame() {
  spread();
  const lanes = part('lanes'), isNarrow = view.gap < NARROW, height = isNarrow ? 84 : 28;
  lanes.setAttribute('width', '100%');
  lanes.setAttribute('height', height);
  lanes.style.display = 'block';
  lanes.innerHTML = lanesShown().map((lane) => {
    const name = typeof lane === 'number' ? 'client ' + lane : lane, x = laneX(lane);
    return isNarrow ? `<text transform='translate(${x + 4} ${height - 6}) rotate(-90)'>${name}</text>` : `<text x='${x}' y='19' text-anchor='middle'>${name}</text>`;
  }).join('');
  part('tall').style.position = 'relative';
  part('tall').style.height = PITCH * Math.max(1, view.rows.length) + 'px';
}

// THE PANEL

function lineShown(line) {
  const found = view.address !== null && hasAddress(line, view.address) ? ' found' : '';
  const said = line.said === '' ? '' : `<p>${markUp(line.said)}</p>`;
  return `<div class='line${found}'><p class='bytes'>${markUp(line.line)}</p>${said}</div>`;
}

// what a step took: a TRB off a ring, by its consumer
function takenShown(taken) {
  return `<div class='line'><p>takes ${taken.ring}, place ${taken.place}${taken.said === '' ? '' : ': ' + markUp(taken.said.replace(/ at [^()]*$/, ''))}</p></div>`;
}

const LETTERS = { 'Normal': 'N', 'Link': 'Link', 'Stop': 'Stop', 'Set': 'Set', 'Transfer': 'T', 'Command': 'C' };

// how many places are before an end, counted in the turns of its cycle bit
function waitingOn(ring, length) {
  const isSameTurn = ring.producer.cycle === ring.consumer.cycle;
  return ring.producer.place - ring.consumer.place + (isSameTurn ? 0 : length);
}

function lengthOf(ring) {
  if (ring.name === 'event ring') return run.events;
  for (const [place, trb] of ring.places) if (trb.name === 'link') return place;
  return Infinity;
}

function cellShown(ring, place, waits, isNew) {
  const trb = ring.places.get(place), classes = ['cell'];
  if (waits) classes.push('waits');
  if (isNew) classes.push('new');
  const ends = (place === ring.producer.place ? 'P' : '') + (place === ring.consumer.place ? 'C' : '');
  const title = trb ? `place ${place}: ${trb.bytes} ${markUp(trb.said)}` : `place ${place}: nothing was put there`;
  const letter = trb ? LETTERS[trb.said.split(' ')[0]] || '?' : '';
  return `<span class='${classes.join(' ')}' title='${title}'>${place}<br>${letter}<br>${trb ? trb.cycle : 0}<b>${ends}</b></span>`;
}

// A ring: both its ends, and its places around them.
function ringShown(ring, written) {
  const length = lengthOf(ring), waiting = waitingOn(ring, length), most = Math.max(...ring.places.keys(), ring.producer.place);
  const first = most < 24 ? 0 : Math.max(0, Math.min(ring.consumer.place, ring.producer.place) - 3), last = Math.min(most, first + 23);
  const cells = [];
  for (let place = first; place <= last; place += 1) {
    const behind = place - ring.consumer.place + (place < ring.consumer.place ? length : 0);
    cells.push(cellShown(ring, place, behind < waiting && place !== length, written.has(ring.name + ' ' + place)));
  }
  const end = (name, at) => `${name} at place ${at.place}, cycle ${at.cycle}`;
  const ends = `${waiting} waiting; ${end('producer', ring.producer)}; ${end('consumer', ring.consumer)}`;
  return `<div class='ring'><p><b>${ring.name}</b>: ${ends}</p><div class='cells'>${cells.join('')}</div></div>`;
}

// Rings that the step wrote to or took from, and others on which TRBs wait.
const MOST_SHOWN = 12;

// a number of things by their name
function counted(count, one, many) {
  return `${count} ${count === 1 ? one : many}`;
}

function more(count, what) {
  return count === 0 ? '' : `<p class='quiet'>not shown: ${count} ${what}</p>`;
}

function ringsShown(state, lines) {
  const written = new Set(lines.filter((line) => line.isWritten).map(placeAt).filter(Boolean).map((at) => at.ring + ' ' + at.place));
  const names = new Set(Array.from(written, (name) => name.slice(0, name.lastIndexOf(' '))).concat(state.taken.map((taken) => taken.ring)));
  const rings = ringsByName(state), own = rings.filter((ring) => names.has(ring.name));
  const others = rings.filter((ring) => !names.has(ring.name) && waitingOn(ring, lengthOf(ring)) > 0);
  const shown = own.concat(others).slice(0, Math.max(own.length, MOST_SHOWN));
  return shown.map((ring) => ringShown(ring, written)).join('') + more(own.length + others.length - shown.length, 'with TRBs that wait')
    + more(rings.length - own.length - others.length, 'empty');
}

function ringsByName(state) {
  return Array.from(state.rings.values()).sort((one, other) => one.name.localeCompare(other.name, 'en', { numeric: true }));
}

function contextsShown(state, tags) {
  const rings = ringsByName(state).filter((ring) => ring.name.includes(' of stream '));
  const shown = rings.filter((ring) => tags.includes(Number(ring.name.split(' ').pop())) || waitingOn(ring, lengthOf(ring)) > 0).slice(0, 2 * MOST_SHOWN);
  return shown.map((ring) => {
    const pointer = ring.base === null ? '' : (ring.base + 16 * ring.consumer.place).toString(16).padStart(16, '0');
    return `<p><code>${pointer}</code> dcs ${ring.consumer.cycle}: ${ring.name}, place ${ring.consumer.place}${ring.isMoved ? ' (was moved)' : ''}</p>`;
  }).join('') + more(rings.length - shown.length, 'of other streams');
}

function taskShown([tag, task]) {
  const phase = !task.isCommand ? 'its response is due' : task.isEnded ? `ended at a bad block behind ${task.moved} bytes` : `${task.moved} bytes moved`;
  return `<p>tag ${tag}: ${markUp(task.said.replace(/ at command buffer.*$/, ''))}: ${phase}</p>`;
}

function firstOf(all, shown) {
  return all.slice(0, MOST_SHOWN).map(shown).join('') + more(Math.max(0, all.length - MOST_SHOWN), 'more');
}

function section(title, shown) {
  return `<h2>${title}</h2>${shown || `<p class='quiet'>none</p>`}`;
}

function drawPanel() {
  const step = run.steps[view.step], lines = linesOf(run, step), state = stateBehind(view.step);
  const of = (step.client === null ? '' : ' of client ' + step.client) + (step.tags.length === 0 ? '' : ', tag ' + step.tags.join(' and '));
  const held = state.held === null ? '' : `<p>pipe ${state.held.pipe} is held, for the TD of tag ${state.held.tag}</p>`;
  const replies = state.replies.slice(-8).map((reply) => `<p class='${reply.step === view.step ? 'found' : ''}'><code>${markUp(reply.line)}</code></p>`);
  part('panel').innerHTML = section(`Step ${view.step + 1}${of}`, lineShown(lines[0]) + state.taken.map(takenShown).join('') + lines.slice(1).map(lineShown).join(''))
    + section(`Rings (P: producer, C: consumer; a place's number, TRB, cycle bit)`, held + ringsShown(state, lines))
    + section(`Events that wait: ${state.events.length}`, firstOf(state.events, (event) => `<p>${markUp(event.said)}</p>`))
    + section(`Tasks of the device: ${state.tasks.size}`, firstOf(Array.from(state.tasks), taskShown))
    + section(`Replies: ${state.replies.length}${state.replies.length > 8 ? ', the last 8' : ''}`, replies.join(''))
    + section('Stream contexts', contextsShown(state, step.tags));
  const shown = view.steps.length === run.steps.length ? '' : `, ${view.steps.length} shown`;
  part('count').textContent = `step ${view.step + 1} of ${run.steps.length}${shown}`;
  part('now').textContent = `Step ${view.step + 1}${of}: ${lines[0].line}`;
}

// KEYS AND CLICKS

function goTo(index) {
  view.step = Math.max(0, Math.min(run.steps.length - 1, index));
  const box = part('picture'), place = view.places.get(view.step);
  if (place !== undefined) {
    const y = PITCH * place, height = PITCH * run.steps[view.step].rows;
    if (y < box.scrollTop + PITCH || y + height > box.scrollTop + box.clientHeight - part('lanes').clientHeight - PITCH) box.scrollTop = Math.max(0, y - box.clientHeight / 3);
  }
  history.replaceState(null, '', '#' + (view.step + 1));
  drawRows();
  drawPanel();
}

// so many of the shown steps on, or back
function move(count) {
  const steps = view.steps;
  if (steps.length === 0) return;
  let place = steps.findIndex((index) => index >= view.step);
  if (place < 0) place = steps.length;
  if (count > 0 && steps[place] !== view.step) place -= 1;
  goTo(steps[Math.max(0, Math.min(steps.length - 1, place + count))]);
}

function stepsWithAddress() {
  if (view.address === null) return [];
  return view.steps.filter((index) => linesOf(run, run.steps[index]).some((line) => hasAddress(line, view.address)));
}

function search(goes) {
  const text = part('address').value.trim().replace(/^0x/i, '');
  view.address = /^[0-9a-f]{1,16}$/i.test(text) ? parseInt(text, 16) : null;
  const found = stepsWithAddress();
  part('hits').textContent = text === '' ? '' : view.address === null ? 'no address' : 'in ' + counted(found.length, 'step', 'steps');
  const next = found.find((index) => index > view.step);
  if (goes && found.length > 0) goTo(next === undefined ? found[0] : next);
  else drawPanel();
}

function filter() {
  view.client = part('client').value;
  view.tag = part('tag').value;
  applyFilters();
  drawFrame();
  const next = view.steps.find((index) => index >= view.step);
  goTo(next !== undefined ? next : view.steps.length > 0 ? view.steps[view.steps.length - 1] : view.step);
  search(false);
}

const KEYS = { ArrowRight: () => move(1), ArrowDown: () => move(1), ArrowLeft: () => move(-1), ArrowUp: () => move(-1), PageDown: () => move(10),
  PageUp: () => move(-10), Home: () => move(-Infinity), End: () => move(Infinity), '/': () => part('address').focus(), Escape: showAll };

function showAll() {
  part('client').value = part('tag').value = part('address').value = '';
  filter();
  const row = part('rows').querySelector(`.row[tabindex='0']`);
  if (row) row.focus({ preventScroll: true });
}

function onKey(event) {
  const isText = event.target === part('address');
  if (isText && event.key === 'Enter') search(true);
  if (event.key === 'Enter' || event.key === ' ') pick(event);
  if (event.ctrlKey || event.altKey || event.metaKey || !KEYS[event.key] || (event.target.tagName === 'SELECT' && event.key !== 'Escape')) return;
  if (isText && event.key !== 'Escape') return;
  event.preventDefault();
  KEYS[event.key]();
}

function pick(event) {
  const row = event.target.closest('.row');
  if (row) goTo(Number(row.dataset.step));
}

// the step that the page's address names, as #5 does
function goToAddress() {
  goTo((parseInt(location.hash.slice(1), 10) || 1) - 1);
}

function fillChoices() {
  part('legend').innerHTML = Object.keys(LEGEND).map((kind) => `<li><svg width='22' height='10' aria-hidden='true' class='${kind}'>${arrow(0, 20, 5)}</svg> ${LEGEND[kind]}</li>`).join('');
  part('help').open = innerWidth >= 800;
  const option = (value, text) => `<option value='${value}'>${text}</option>`;
  const tags = Array.from(new Set(run.steps.flatMap((step) => step.tags))).sort((one, other) => one - other);
  part('client').innerHTML = option('', 'all') + lanesShown().slice(0, run.clients).map((client) => option(client, client)).join('');
  part('tag').innerHTML = option('', 'all') + tags.map((tag) => option(tag, tag)).join('');
}

function start() {
  if (run.steps.length === 0) { part('panel').textContent = 'The run has no step.'; return; }
  fillChoices();
  applyFilters();
  drawFrame();
  part('picture').addEventListener('scroll', drawRows);
  part('rows').addEventListener('click', pick);
  part('back').addEventListener('click', () => move(-1));
  part('on').addEventListener('click', () => move(1));
  part('client').addEventListener('change', filter);
  part('tag').addEventListener('change', filter);
  part('address').addEventListener('input', () => search(false));
  addEventListener('keydown', onKey);
  addEventListener('resize', () => { drawFrame(); drawRows(); });
  addEventListener('hashchange', goToAddress);
  goToAddress();
}

start();
</script>
</body>
</html>
";

//! The page that shows an answer in a browser: the script behind its data.

use crate::page_table::TABLES;
use numa_sheets::{Written, put_colours};

/// The part behind the data: the script, which needs no network. Before it stand the colours.
static SCRIPT: &str = "
const data = JSON.parse(document.getElementById('data').textContent);
const whole = document.getElementById('page');
// Where parts are put: in a page of several processes the section that is made, whose paragraph
// says what it shows, and what its names end with.
let page = whole;
let said = document.getElementById('said');
let mark = '';
let process;
// (On a phone's width 64 numbers would lie over each other.)
const CELLS = window.innerWidth < 600 ? 16 : 64;
// A table has a column for each of so many nodes.
const FEW = 16;
// By process the views that can be opened, and what makes sections that aren't made yet.
const opened = new Map();
const unmade = new Map();

function make(name, parent, text, kind) {
  const made = document.createElement(name);
  if (text !== undefined) made.textContent = text;
  if (kind) made.className = kind;
  if (parent) parent.appendChild(made);
  return made;
}
const hex = (number) => '0x' + number.toString(16);
const fill = (node) => COLOURS[node % 16][0];
const ink = (node) => COLOURS[node % 16][1];
const grouped = (number) => number.toLocaleString('en');
const pagesText = (pages) => grouped(pages) + (pages === 1 ? ' page' : ' pages');

// The size of so many pages, rounded, in a unit of which there are 1 to 1,024.
function sizeText(pages) {
  let [size, left] = [pages * 4, ['MiB', 'GiB', 'TiB']];
  let unit = 'KiB';
  while (size >= 1024 && left.length) {
    size /= 1024;
    [unit, ...left] = left;
  }
  return (size < 10 ? Math.round(size * 10) / 10 : grouped(Math.round(size))) + ' ' + unit;
}
const amountText = (pages) => pagesText(pages) + ' (' + sizeText(pages) + ')';
const nodesText = (nodes, what) => nodes.map((it) => 'N' + it.node + '=' + it[what]).join(' ');

function paint(made, node) {
  made.style.background = fill(node);
  made.style.color = ink(node);
}

// The areas that scripts name, rising, of all processes or of the one of the section.
const areas = data.names || [];
let ofProcess = areas;
const clean = (name) => name.replace(/\\p{C}/gu, '\\ufffd');

// The names of the areas that a range has pages of, each once.
function namesOf(range, some) {
  let [low, high] = [0, some.length];
  while (low < high) {
    const middle = (low + high) >> 1;
    if (some[middle].end <= range.start) low = middle + 1;
    else high = middle;
  }
  const found = new Set();
  for (let k = low; k < some.length && some[k].start < range.end; k += 1) {
    found.add(clean(some[k].name));
  }
  return [...found].join(', ');
}

// ---- pages

// Where pages go by the rules, cycle by cycle.
function viewOf(state) {
  const { prediction, stretches, cycles } = state;
  const { ranges, others } = prediction;
  const view = { ranges, others, words: new Map(), prediction };
  const at = new Map(cycles.map((it) => [it.start, it]));
  for (const it of stretches) view.words.set(it.start, it);
  view.node = (range, address) => nodeInCycle(at.get(range.start), (address - range.start) / 4096);
  return view;
}

// Where pages lie, run by run.
function placedView(view, runs) {
  return { ...view, lies: true, node: (range, address) => nodeInRuns(runs, address / 4096) };
}

// The range of a page's address, by halving.
function rangeOf(view, address) {
  let [low, high] = [0, view.ranges.length];
  while (low < high) {
    const middle = (low + high) >> 1;
    if (view.ranges[middle].end <= address) low = middle + 1;
    else high = middle;
  }
  const range = view.ranges[low];
  return range && range.start <= address ? range : undefined;
}

// The node of a place in a cycle; undefined where there is none.
function nodeInCycle(cycle, index) {
  if (!cycle) return undefined;
  let place = index % cycle.pages;
  for (const [node, count] of cycle.cycle) {
    if (place < count) return node;
    place -= count;
  }
  return undefined;
}

// The node on which a page lies, by halving; undefined where it lies nowhere.
function nodeInRuns(runs, page) {
  let [low, high] = [0, runs.length];
  while (low < high) {
    const middle = (low + high) >> 1;
    if (runs[middle][0] + runs[middle][1] <= page) low = middle + 1;
    else high = middle;
  }
  const run = runs[low];
  return run && run[0] <= page ? run[2] : undefined;
}

// The node of a page; undefined where it isn't mapped, or the answer doesn't tell.
function nodeOf(view, address) {
  const range = rangeOf(view, address);
  return range && view.node(range, address);
}

// The nodes of pages, each with its share: of many pages those of at most 256 of them.
function sharesOf(view, start, pages) {
  const shares = new Map();
  const step = Math.max(1, Math.floor(pages / 256));
  for (let place = 0; place < pages; place += step) {
    const node = nodeOf(view, start + place * 4096);
    shares.set(node, (shares.get(node) || 0) + 1);
  }
  return shares;
}

function paintShares(cell, shares) {
  const all = [...shares.values()].reduce((a, b) => a + b, 0);
  let done = 0;
  const parts = [];
  for (const [node, count] of [...shares].sort((a, b) => (a[0] ?? 999) - (b[0] ?? 999))) {
    const colour = node === undefined ? '#ffffff' : fill(node);
    parts.push(colour + ' ' + (100 * done) / all + '% ' + (100 * (done + count)) / all + '%');
    done += count;
  }
  cell.style.background = 'linear-gradient(to top, ' + parts.join(', ') + ')';
}

// Strips of the pages of a span, one a view; a click on a cell of several pages goes into them.
function strips(views, start, end, trail) {
  const { told } = views;
  told.strips.textContent = '';
  told.words.textContent = '';
  const pages = (end - start) / 4096;
  const whole = hex(start) + ' to ' + hex(end) + ', ' + pagesText(pages) + ' ';
  const line = make('p', told.strips, whole);
  if (trail.length) {
    make('button', line, 'back').onclick = () => {
      const [a, b] = trail[trail.length - 1];
      strips(views, a, b, trail.slice(0, -1));
    };
  }
  const count = Math.min(CELLS, pages);
  for (const [name, view] of views) {
    if (views.length > 1) make('div', told.strips, name);
    const strip = make('div', told.strips, undefined, 'strip');
    for (let k = 0; k < count; k += 1) {
      const from = start + Math.floor((k * pages) / count) * 4096;
      const behind = start + Math.floor(((k + 1) * pages) / count) * 4096;
      cellOf(views, view, strip, from, behind, [start, end], trail);
    }
  }
}

function differs(views, from, behind) {
  if (views.length < 2 || behind - from > 4096) return false;
  const [before, after] = views.map((it) => nodeOf(it[1], from));
  return before !== undefined && after !== undefined && before !== after;
}

function cellOf(views, view, strip, from, behind, whole, trail) {
  const pages = (behind - from) / 4096;
  const cell = make('div', strip, undefined, 'cell');
  const shares = sharesOf(view, from, pages);
  if (shares.size === 1) {
    const node = [...shares.keys()][0];
    cell.textContent = node === undefined ? '-' : node;
    if (node !== undefined) paint(cell, node);
  } else {
    paintShares(cell, shares);
  }
  if (differs(views, from, behind)) cell.classList.add('differs');
  const names = [...shares.keys()].map((it) => (it === undefined ? 'none' : it)).join(', ');
  cell.title = hex(from) + (pages > 1 ? ', ' + pagesText(pages) : '') + ': node ' + names;
  cell.tabIndex = 0;
  cell.onclick = () => {
    if (pages > 1) strips(views, from, behind, [...trail, whole]);
    else explain(views, from);
  };
}

// What is known of a page in a view, in words.
function explained(view, address) {
  const range = rangeOf(view, address);
  if (!range) {
    const hidden = view.others ? ', or in none of the ranges that are shown' : '';
    return ['page ' + hex(address) + ' is not mapped' + hidden];
  }
  const said = view.words.get(range.start);
  const node = nodeOf(view, address);
  const turn = said && said.index + Math.floor((address - said.start) / (said.bytes || 4096));
  const index = said ? ', index ' + turn : '';
  const where = node === undefined ? (view.lies ? 'on no node' : 'node ?') : 'node ' + node;
  const line = 'page ' + hex(address) + index + ': ' + where;
  return view.lies || !said ? [line] : [line, ...said.words];
}

function explain(views, address) {
  const lines = [];
  for (const [name, view] of views) {
    if (views.length > 1) lines.push(name + ':');
    lines.push(...explained(view, address));
  }
  views.told.words.textContent = lines.join('\\n');
}

// Shows a range's pages, and has the page's address name it.
function open(views, range) {
  strips(views, range.start, range.end, []);
  const process = views.process === undefined ? '' : views.process + '/';
  history.replaceState(null, '', '#' + process + hex(range.start));
}

// Shows the range that the page's address names.
function follow() {
  const found = /^#(?:(\\d+)[/])?(0x[0-9a-f]+)$/.exec(location.hash);
  const missing = found && unmade.get(found[1]);
  if (missing) missing();
  const views = found && opened.get(found[1]);
  const range = views && rangeOf(views[0][1], Number(found[2]));
  if (!range) return;
  strips(views, range.start, range.end, []);
  views.told.strips.scrollIntoView();
}

const sizeCell = (pages) => ({ key: pages, text: sizeText(pages), isNumber: true });

// The table of a view's ranges, and what the others have.
function rangesPart(title, view, views) {
  const nodes = view.prediction.total.nodes.map((it) => it.node);
  const rows = view.ranges.map((it) => ({
    value: it,
    areas: ofProcess,
    cells: [
      ...rangeCells(it),
      countCell(it.anon),
      sizeCell(it.anon),
      it.policy,
      ...nodeCells(it, nodes),
    ],
  }));
  const heads = ['start', 'end', ...nameHeads(), 'pages', 'size', 'policy', ...nodeHeads(nodes)];
  table(title, heads, rows, (it) => open(views, it), nodes);
  const rest = view.others;
  if (rest) {
    make('p', page, 'These are the largest. Others: ' + rest.ranges + ', with '
      + amountText(rest.anon) + ', ' + nodesText(rest.nodes, 'pages'), 'others');
  }
}

const mostOf = (total) => Math.max(1, ...total.nodes.map((it) => it.pages));

// The pages of each node, with bars of which the longest has this many.
function totals(title, total, most) {
  table(
    title,
    ['node', 'pages', 'size', 'in proportion'],
    total.nodes.map((it) => ({
      cells: [
        { key: it.node, text: String(it.node), mark: true },
        countCell(it.pages),
        sizeCell(it.pages),
        { key: it.pages, text: '', bar: Math.round((400 * it.pages) / most), node: it.node },
      ],
    })),
  );
}

function pagesPart(views, isUntold) {
  make('h2', page, 'Pages');
  make('p', page, 'Choose a row above; a cell of several pages opens, one of a page tells why.'
    + (views.length > 1 ? ' Cells with a thick frame differ.' : '')
    + (isUntold ? ' Where nodes fill or repeat after many pages, a page has no node but -.' : ''));
  views.told = { strips: make('div', page), words: make('pre', page) };
  views.told.strips.id = 'strips' + mark;
  views.told.words.id = 'words' + mark;
  views.process = process;
  opened.set(process === undefined ? undefined : String(process), views);
  const first = views[0][1].ranges[0];
  if (first) strips(views, first.start, first.end, []);
}

// ---- the kinds of pages, of one process and of all together

function say(text) {
  said.textContent = '';
  putWords(said, text);
}

const pairsText = (list) => list.map((m) => 'N' + m.from + '->N' + m.to + '=' + m.pages).join(' ');
const placedText = ({ anon, exhausted }) => amountText(anon)
  + (exhausted ? ', ' + grouped(exhausted) + ' exhausted' : '');
const differsText = ({ differs: pages, differences }) => amountText(pages)
  + (pages ? ', ' + pairsText(differences) : '');

function leftPart(left) {
  if (!left) return;
  table('Left', ['node', 'pages', 'size'], left.map(({ node, pages }) => ({
    cells: [{ key: node, text: String(node), mark: true }, countCell(pages), sizeCell(pages)],
  })));
  make('p', page, 'Nodes that this table lacks never fill.', 'others');
}

function prediction(from) {
  const view = viewOf(from.before);
  const { task, cpu, version, total, left } = view.prediction;
  say('Where pages would go that task ' + task + ' touched on node ' + cpu + ' (version ' + version
    + '): ' + placedText(total));
  totals('Totals', total, mostOf(total));
  leftPart(left);
  const views = [['now', view]];
  rangesPart('Ranges', view, views);
  pagesPart(views, view.ranges.some((it) => view.node(it, it.start) === undefined));
}

function predictions({ total, left }) {
  say(placedText(total));
  totals('Totals', total, mostOf(total));
  leftPart(left);
}

function difference(from) {
  const { spans, total, task, cpu, others } = from.difference;
  const [before, after] = [viewOf(from.before), viewOf(from.after)];
  const views = [['before', before], ['after', after]];
  say('Pages that would go elsewhere if task ' + task + ' touched them on node ' + cpu + ': '
    + differsText(total));
  const [old, changed] = [before.prediction.total, after.prediction.total];
  const most = Math.max(mostOf(old), mostOf(changed));
  totals('Before', old, most);
  totals('After', changed, most);
  table(
    'Differences',
    ['start', 'end', ...nameHeads(), 'differs', 'from and to'],
    spans.map((it) => ({
      value: it,
      cells: [
        ...rangeCells(it),
        countCell(it.differs),
        pairsText(it.differences),
      ],
    })),
    (it) => open(views, it),
  );
  if (others) {
    make('p', page, 'These are the largest. Others: ' + others.spans + ', with '
      + amountText(others.differs) + ' that differ', 'others');
  }
  rangesPart('Ranges after', after, views);
  pagesPart(views);
}

function differences({ total }) {
  say('Pages that would go elsewhere: ' + differsText(total));
}

// What the accesses of a trace met.
function replays({ total }) {
  const [all, placed, exhausted, unserved] = [total.accesses, total.placed, total.exhausted,
    total.unserved].map(grouped);
  say('What ' + all + ' accesses met: ' + placed + ' faults placed a page, ' + exhausted
    + ' found no frame, ' + unserved + ' accesses went nowhere'
    + (total.mean ? '; the mean distance is ' + total.mean : ''));
  const most = Math.max(1, ...total.nodes.map((it) => it.accesses));
  table('Nodes', ['node', 'accesses', 'in proportion'], total.nodes.map((it) => ({
    cells: [
      { key: it.node, text: String(it.node), mark: true },
      countCell(it.accesses),
      { key: it.accesses, text: '', bar: Math.round((400 * it.accesses) / most), node: it.node },
    ],
  })));
  table('Distances', ['distance', 'accesses'], total.distances.map((it) => ({
    cells: [it.distance, countCell(it.accesses)],
  })));
}

function replay(from) {
  replays(from.replay);
  table(
    'Tasks',
    ['task', 'accesses', 'nodes', 'placed', 'exhausted', 'unserved'],
    from.replay.tasks.map((it) => ({
      cells: [it.task, countCell(it.accesses), nodesText(it.nodes, 'accesses'),
        ...[it.placed, it.exhausted, it.unserved].map(countCell)],
    })),
  );
  const before = viewOf(from.before);
  const { task, cpu } = before.prediction;
  const views = [['by the rules, for task ' + task + ' on node ' + cpu, before],
    ['after the trace', placedView(before, from.placed.runs)]];
  busiestPart(from.replay.ranges, (it) => open(views, it));
  rangesPart('Ranges', before, views);
  if (from.placed.others) {
    const pages = pagesText(from.placed.others);
    make('p', page, 'Of ' + pages + ' it is not told where they lie', 'others');
  }
  pagesPart(views);
}

// A section of a page of several processes, with a link to it at the top. The first are made at
// once, and others as one comes to them.
function section(name, heading, build, from) {
  const link = make('a', links, heading);
  link.href = '#' + name;
  const part = make('section', whole);
  part.id = name;
  make('h1', part, heading);
  const words = make('p', part);
  const made = () => {
    [page, said, process, mark] = [part, words, from.process, '-' + from.process];
    ofProcess = areas.filter((area) => area.process === from.process);
    build(from);
  };
  if (document.getElementsByTagName('*').length < 2500) return made();
  const seer = new IntersectionObserver((seen) => {
    if (seen.some((it) => it.isIntersecting)) unmade.get(String(from.process))();
  });
  unmade.set(String(from.process), () => {
    seer.disconnect();
    unmade.delete(String(from.process));
    made();
  });
  seer.observe(part);
}

const [one, all] = {
  prediction: [prediction, predictions],
  difference: [difference, differences],
  replay: [replay, replays],
}[data.kind];
const links = said;
if (data.processes) {
  for (const it of data.processes) {
    const heading = 'process ' + it.process + ', group ' + it.group;
    section('process-' + it.process, heading, one, it);
  }
  section('all', 'all processes', all, data);
} else {
  one(data);
}
window.onhashchange = follow;
window.onbeforeprint = () => {
  for (const make of [...unmade.values()]) make();
  for (const fill of fills) fill();
};
follow();
document.body.dataset.ready = 'yes';
</script>
</body>
</html>
";

/// Writes the part of the page behind its data.
pub(crate) fn put_script(text: &mut Written) {
    text.put(b"\n</script>\n<script>\n'use strict';\nconst COLOURS = ");
    put_colours(text);
    text.put(b";");
    text.put(TABLES.as_bytes());
    text.put(SCRIPT.as_bytes());
}
